//! The page of a table: what is found of it, a picture of its states, and its rows.
#![tactic(auto)]

mod cells;
mod drawing;
mod layout;
mod legend;
mod marks;
mod page;
mod paths;
mod picture;
mod promises;
mod style;

pub use drawing::{Drawing, drawing_of};
pub use layout::{PictureRow, RowWay, StateMark};
pub use marks::{Marks, marked_table};
pub use page::write_page;
pub use paths::RowPath;
pub use picture::MarkedPicture;
