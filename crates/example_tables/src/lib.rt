//! Small programs over `Table`, as its users write them. Each has a contract that is proved only from the contracts of the library. The tests that
//! run them are in `test_examples`.
#![tactic(auto)]

mod calls;
mod program;
mod symbols;
mod tables;
mod upkeep;
mod words;

pub use calls::all_done;
pub use program::{File, Function, Program};
pub use symbols::{is_keyword, reads_back, same_word};
pub use tables::{first_text, is_known, lengths_of_both};
pub use upkeep::{
    all_held, any_shared, bytes_for_each, last_text, make_room, small_table, start_over, table_of,
    table_with_holders, takes_at_most, usual_length,
};
pub use words::{
    are_one_name, comes_and_goes, first_byte, hand_on, is_shared, lent_text, price_of, share,
    two_come_and_go,
};
