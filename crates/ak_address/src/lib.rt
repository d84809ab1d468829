//! Who a process of the cluster is: its address and uid, their order, their text, and the one table
//! that is sorted by it.
#![tactic(auto)]

mod address;
mod counting;
mod keys;
mod laws;
mod parse;
mod print;
mod table;
mod text;
mod uniques;
mod values;

pub use address::{Address, Unique, contains_address};
pub use counting::AddressCount;
pub use laws::{
    merges_are_pointwise, orders_are_total, quorums_share_an_address, spellings_are_words,
    spellings_have_one_value, texts_are_spellings,
};
pub use parse::{AddressFault, is_address, is_unique, parse_address, parse_number, parse_unique};
pub use print::{print_number, print_wide_number};
pub use table::{Duplicate, Merge, Raise, Table};
pub use text::Text;
pub use uniques::Uniques;
