ghost use Rattle.std.specs.Prelude.{◌≡◌, ◌<◌, [], if◌then◌else◌};
ghost use Rattle.dir_list.specs.Lists.{with_node};
ghost use Rattle.target_cache.specs.Cached.{tag_of};
ghost use Rattle.quantum.specs.Stations.{IsUnbroken, machine_of};
ghost use Rattle.wt_report.specs.Stations.{node_of};
ghost use Rattle.coherence.specs.Copies.{is_beside, is_stray, reads, writes};

use block_tags::Tag;
use quantum::Station;
use wt_proto::NodeSet;

/// Who holds a block.
#[derive(Debug, Drop)]
pub struct Copies {
    /// The nodes that hold it writable.
    pub writers: NodeSet,
    /// The nodes that hold it read-only.
    pub readers: NodeSet,
}

impl Copies {
    /// Nobody.
    pub(crate) fn new() -> Copies
        ensures writers { result.writers ≡ [] }
        ensures readers { result.readers ≡ [] }
    {
        Copies {
            writers: NodeSet::new(),
            readers: NodeSet::new(),
        }
    }

    /// Adds the node of a station, where it holds the block.
    pub(crate) fn add(&mut self, station: &Station, block: u32)
        requires unbroken { IsUnbroken station.now }
        requires exists { block < (machine_of station.now).blocks }
        ensures writers { let node = node_of station.now in self.new.writers ≡ (if writes block node then with_node node.number self.old.writers else self.old.writers) }
        ensures readers { let node = node_of station.now in self.new.readers ≡ (if reads block node then with_node node.number self.old.readers else self.old.readers) }
    {
        let node = station.node();
        match tag_in(station, block) {
            Tag::Writable => self.writers.insert(node.number()),
            Tag::ReadOnly => self.readers.insert(node.number()),
            Tag::Invalid => {}
        }
    }
}

/// What the node of a station may do with a block.
fn tag_in(station: &Station, block: u32) -> Tag
    requires unbroken { IsUnbroken station.now }
    requires exists { block < (machine_of station.now).blocks }
    ensures { result ≡ tag_of (node_of station.now).cache block }
{
    station.node().cache().tag(block)
}

/// Whether the node of a station holds a block writable.
pub(crate) fn writes(station: &Station, block: u32) -> bool
    requires unbroken { IsUnbroken station.now }
    requires exists { block < (machine_of station.now).blocks }
    ensures { result ≡ writes block (node_of station.now) }
{
    matches!(tag_in(station, block), Tag::Writable)
}

/// Whether it is another node than a writer of the block, and holds it too.
pub(crate) fn is_beside(station: &Station, block: u32, writer: u32) -> bool
    requires unbroken { IsUnbroken station.now }
    requires exists { block < (machine_of station.now).blocks }
    ensures { result ≡ is_beside block writer (node_of station.now) }
{
    let held = match tag_in(station, block) {
        Tag::Writable | Tag::ReadOnly => true,
        Tag::Invalid => false,
    };
    held && station.node().number() != writer
}

/// Whether a message came to it that nobody had asked for.
pub(crate) fn is_stray(station: &Station) -> bool
    ensures { result ≡ is_stray (node_of station.now) }
{
    station.node().counters().stray != 0
}
