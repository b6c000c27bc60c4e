ghost use Rattle.std.specs.Prelude.{◌≡◌, IfErr, IfOk};
ghost use Rattle.wt_proto.specs.Messages.{key_of};

use crate::key::Key;
use crate::message::{Back, Stamped};
use std::alloc::Global;
use std::marker::Model;

/// A message in a place of its own, which is handed on without moving it. Contracts see the message.
#[derive(Debug, Drop)]
pub struct Letter {
    message: Box<Stamped>,
}

impl Model for Letter {
    ghost use Rattle.wt_proto.specs.declared.message.Stamped.{Stamped};

    ghost Value = { Stamped };

    ghost view = { λ letter. letter.message.value };
}

impl Letter {
    /// Puts a message into a new place. Where memory is refused, it comes back.
    #[inline(always)]
    pub fn new(alloc: Global, message: Stamped) -> Result<Letter, Back>
        ensures ok { IfOk result (λ letter. letter ≡ message) }
        ensures back { IfErr result (λ back. back.message ≡ message) }
    {
        match Box::new(alloc, message) {
            Ok(message) => Ok(Letter { message }),
            Err(refused) => Err(Back {
                message: refused.value,
            }),
        }
    }

    /// Its message.
    #[inline(always)]
    pub fn message(&self) -> &Stamped
        ensures { result.now ≡ self.now }
    {
        &self.message
    }

    /// The key of its message.
    #[inline(always)]
    pub fn key(&self) -> Key
        ensures { result ≡ key_of self.now }
    {
        self.message.key()
    }

    /// Puts another message into its place.
    #[inline(always)]
    pub fn rewrite(&mut self, message: Stamped)
        ensures { self.new ≡ message }
    {
        *self.message = message;
    }

    /// Takes its message out of its place.
    #[inline(always)]
    pub fn into_message(self) -> Stamped
        ensures { result ≡ self }
    {
        Box::into_inner(self.message)
    }
}
