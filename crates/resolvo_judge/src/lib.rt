//! The judge of a report: whether its steps are a proof, and its claim is true.
#![tactic(auto)]

mod alternatives;
mod chosen;
mod end_rules;
mod entries;
mod forbid;
mod forbidden_wishes;
mod judge_state;
mod judgement;
mod kept_reasons;
mod laws;
mod log;
mod named_lines;
mod versions;

pub use judgement::{JudgeFault, Judged, Verdict, judge, judge_counted};
pub use laws::{
    accepted_install_is_true, accepted_refusal_is_true, message_bytes_change_nothing,
    messages_change_nothing, places_are_one, proof_forbids, proof_refutes, steps_are_true,
    upheld_texts_are_refused_nowhere,
};
pub use resolvo_checker::check_step::Premises;
pub use resolvo_checker::clauses::Readings;
pub use resolvo_checker::proof::{Checked, check_steps, count_causes};
pub use resolvo_report::{
    AnswerLine, Atom, Literal, Part, Place, Report, ReportFault, ReportLine, ReportReader,
    ReportWriteFault, Step, reports_are_read, text_is_one_report,
};
