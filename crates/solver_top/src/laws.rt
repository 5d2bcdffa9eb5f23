// Laws over the definitions, as clauses of calls that do nothing.
ghost use Rattle.std.specs.Prelude.{◌≡◌, ◌≤◌, ℕ, List};
ghost use Rattle.report_io.specs.declared.report.Report.{Report};
ghost use Rattle.report_io.specs.Report.{report_text};
ghost use Rattle.report_defs.specs.Relation.{IsRight};
ghost use Rattle.report_answers.specs.Answers.{IsRefusedReport};
ghost use Rattle.report_answers.specs.Lines.{valid_line};
ghost use Rattle.report_answers.specs.Rewinding.{IsTooLate};
ghost use Rattle.solve_report.specs.Reports.{IsSolvedReport};
ghost use Rattle.solver_top.specs.Words.{IsLineOf};
ghost use Rattle.solver_top.specs.Answers.{HasInput};
ghost use Rattle.solver_top.specs.Checking.{IsCheckAnswer};
ghost use Rattle.solver_top.specs.Judging.{IsRefused};
ghost use Rattle.solver_top.specs.Readable.{IsReadable};
ghost use Rattle.solver_top.specs.Starting.{IsRefusedInstance};
ghost use Rattle.solver_top.specs.Weaving.{IsRefusedScript};
ghost use Rattle.solver_top.specs.Editing.{IsRefusedSession};

use crate::status::Verdict;
use crate::words::Command;
use instance_io::laws::instance_reads_back;
use plane::Points;
use report_io::Report;

/// An input can't have both its reading for a command and a refusal.
pub fn read_or_refused()
    ensures judge { (input text : List ℕ) → HasInput Command.Judge input → ¬ IsRefused input text }
    ensures start { (input text : List ℕ) → HasInput Command.Start input → ¬ IsRefusedInstance input text }
    ensures check { (input text : List ℕ) → HasInput Command.Check input → ¬ IsRefusedReport input text }
    ensures weave { (input text : List ℕ) → HasInput Command.Weave input → ¬ IsRefusedScript input text }
    ensures rewind { (k : ℕ) (input text : List ℕ) → HasInput (Command.Rewind k) input →
        (¬ IsRefusedReport input text) × (¬ IsTooLate k input text) }
    ensures edit { (input text : List ℕ) → HasInput Command.EditSession input → ¬ IsRefusedSession input text }
{}

/// Words are the line of one command alone.
pub fn one_command()
    ensures { (words : List (List ℕ)) (a b : Command) → IsLineOf words a → IsLineOf words b → a ≡ b }
{}

/// What `solve` writes is right: so `check` says of it.
pub fn solved_is_right(points: &Points)
    ensures { (r : Report) (E : ℕ) → r.instance.points ≡ points.now → IsSolvedReport E r → IsRight r }
{
    let _count = points.len();
}

/// The text of the report of a solved instance has its reading for `check`, which answers Done to it, with the line of its
/// summary.
pub fn solved_text_is_valid(report: &Report)
    requires { IsReadable report.now }
    ensures read { (E : ℕ) → E ≤ 16 → IsSolvedReport E report.now → HasInput Command.Check (report_text report.now) }
    ensures done { (E : ℕ) → E ≤ 16 → IsSolvedReport E report.now → (verdict : Verdict) (text : List ℕ) →
        IsCheckAnswer (report_text report.now) verdict text →
        (verdict ≡ Verdict.Done) × (text ≡ valid_line report.now.summary) }
{
    instance_reads_back(&report.instance);
    let _count = report.instance.points.len();
    let _costs = report.instance.costs.list();
    let _name = report.instance.name.as_str();
    let _solution_name = report.solution_name.as_str();
}
