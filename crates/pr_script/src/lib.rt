//! The script language: exact reading with the first fault, in any pieces, and printing.
#![tactic(auto)]

mod clients;
mod command;
mod decl;
mod declarations;
mod decls;
mod fault;
mod fields;
mod index;
mod item;
mod kind;
mod known;
mod labels;
mod law;
mod lines;
mod nodes;
mod number;
mod numbers;
mod owner;
mod parts;
mod printer;
mod progress;
mod reader;
mod refusal;
mod script;
mod sets;
mod spelling;
mod streams;
mod table;
#[cfg(test)]
mod tests;
mod text;
mod want;
mod word;

pub use command::Command;
pub use decl::Decl;
pub use decls::Decls;
pub use fault::ScriptFault;
pub use fields::name;
pub use kind::Kind;
pub use labels::{is_kind, label_of};
pub use law::{
    accepted_scripts_are_good, labels_tell_declarations_apart, printed_scripts_read_back,
    scripts_have_one_meaning, sets_share_a_name_where_intervals_overlap, steps_follow_the_commands,
};
pub use number::number_within;
pub use owner::{Owner, is_same_owner, owner_of, owners, phase_len};
pub use pr_stamps::Bytes;
pub use printer::{print, print_decls};
pub use reader::{Reader, read};
pub use script::Script;
pub use spelling::{hex_digit, print_text};
pub use table::is_label;
pub use text::read_text;
pub use want::Want;
