//! The rows of the commands that allocate nothing: one variant for each event.

use block_store::{Shape, Value};
use grey_steps::GreyRow;
use never_heap::Reply;

/// How far a thread has come on the way to a field.
#[derive(Clone, Copy, Debug, PartialEq, Eq)]
pub struct TreePath {
    /// What the object is, and how long.
    pub shape: Shape,
    /// How many links were followed.
    pub level: u32,
    /// The block that they led to.
    pub block: u32,
    /// Of `cas` the word with which the field is compared, once it is loaded. Else 0.
    pub expected: u64,
}

/// What a command stores next: the word, and where it goes.
#[derive(Clone, Copy, Debug, PartialEq, Eq)]
pub enum FieldStore {
    /// `mov`: the word of the register that it copies, in the other one.
    Moved { word: u64 },
    /// `get` and `swap`: the field's word, which shows this value, in its register.
    Pending { word: u64, value: Value },
    /// `put`: the word in the field.
    InField { way: TreePath, word: u64 },
    /// `swap`: the word in the field, whose own word goes to the register.
    Exchanged { way: TreePath, word: u64 },
    /// `cas`: the word in the field, where that has the expected one.
    Compared { way: TreePath, word: u64 },
}

/// What a command loads a register for: which one that is, the command says.
#[derive(Clone, Copy, Debug, PartialEq, Eq)]
pub enum Purpose {
    /// `mov`: for the word that it copies.
    Copied,
    /// All that look at an object: for the object to which it should refer.
    Object,
    /// `cas`: for the word with which the field is compared.
    Expected { way: TreePath },
    /// `put`, `swap` and `cas`: for the word that they store.
    Stored { way: TreePath },
    /// `same`: for the first word.
    First,
    /// `same`: for the second word, to be compared with the first.
    Second { word: u64 },
    /// `say`: for the value that it shows.
    Shown,
}

/// The next event of a command that allocates nothing, or its reply. A row has what was loaded for
/// the command and is still needed: blocks, the object's shape, words of values.
#[derive(Clone, Copy, Debug, PartialEq, Eq)]
pub enum FieldRow {
    /// Loads a register.
    LoadRegister { wanted: Purpose },
    /// All that look at an object: loads its shape, at its first block.
    LoadShape { block: u32 },
    /// All that go to a field: loads the next link on the way to it. Of `get` the word is 0, and of
    /// the others the one that they store.
    LoadLink { way: TreePath, word: u64 },
    /// `get`: loads the field.
    LoadField { way: TreePath },
    /// `get`, `swap` and `say`: loads the owner of the block to which the word refers that they
    /// have loaded.
    LoadOwner { word: u64 },
    /// All that store a reference, in Mark: the write barrier of its block has come to this row of
    /// its own.
    Shade { shade: GreyRow, store: FieldStore },
    /// Stores a word that was loaded.
    Store { store: FieldStore },
    /// `set` and `nil`: stores the number, or nil, in the register.
    StoreConstant,
    /// `idle`: looks at the phase.
    IdleLook,
    /// The command is over, with this reply.
    Answered { reply: Reply },
}
