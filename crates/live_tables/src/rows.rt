//! The layer of tables that several threads of a program share while they run: each operation is a
//! few commands of a shared heap, and all operations have one order.

mod crew;
mod heap;

pub use crew::{RowThread, wrapped};
pub use heap::RowHeap;
