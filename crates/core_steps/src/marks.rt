ghost use Rattle.std.specs.Prelude.{◌≡◌, length, MatchOption};
ghost use Rattle.core_steps.specs.Marks.{AreAllDone, IsFirstNotDone};

/// The least node that isn't marked as done.
pub fn first_not_done(done: &[bool], count: u32) -> Option<u32>
    requires { length done.now ≡ count }
    ensures { MatchOption result (AreAllDone count done.now) (IsFirstNotDone count done.now) }
{
    for node in 0..count {
        if !done[node as usize] {
            return Some(node);
        }
    }
    None
}
