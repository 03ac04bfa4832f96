// Rules: a sheet's rules as a book (two masks for each list of literals), and the tests of states against it. What the functions promise is
// said in specs/Book.antt. How a sheet becomes a book is the crate compile.
#![tactic(auto)]

pub mod ask;
pub mod book;
pub mod freedom;
pub mod gather;
pub mod tally;

pub use book::{BOOK_SIZE, Book, GATHER_SIZE, gathered};
pub use gather::fits;
