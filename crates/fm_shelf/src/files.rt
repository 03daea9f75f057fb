// Files that a shelf starts with.
use fm_base::Seq;

/// A file's name with its bytes.
#[derive(Drop)]
pub struct File {
    pub name: String,
    pub bytes: Seq<u8>,
}

/// Files, in order. Where two have one name, the first is the file of that name.
pub type Files = Seq<File>;

/// Numbers of calls, from 1, in any order.
pub type Calls = Seq<u64>;
