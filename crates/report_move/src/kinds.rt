// What moving a report answers.
use report_record::kinds::Report;
use text::kinds::Refusal;

// The report in the other edition; where it is refused, its record is blank.
#[derive(Clone, Copy)]
pub struct Moved {
    pub judged: Result<(), Refusal>,
    pub report: Report,
}
