//! A judge of transcripts: what each line says was asked of the nodes.
#![tactic(auto)]

mod answer;
mod client;
mod event;
mod field;
mod finding;
mod head;
mod judge;
mod judgement;
mod law;
mod line;
mod making;
mod message;
mod node;
mod part;
mod reading;
mod refusal;
mod replay;
mod row;
mod said;
mod stage;
mod stamp;
mod stream;
#[cfg(test)]
mod tests;
mod text_judge;
mod told;
mod transcript;
mod vector;
mod verdict;

pub use field::behind;
pub use head::{begins_head, no_decls, read_head};
pub use judge::Judge;
pub use judgement::Judgement;
pub use law::{
    events_are_given_by_what_lines_say, sound_histories_of_a_script_agree,
    transcripts_begin_line_by_line,
};
pub use line::read_line;
pub use reading::Reading;
pub use said::Said;
pub use text_judge::TextJudge;
pub use transcript::Transcript;
pub use verdict::Verdict;
