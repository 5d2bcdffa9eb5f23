//! Laws of reading and writing reports. Each is a function that does nothing: its contract is the law.
ghost use Rattle.std.specs.Prelude.{◌≡◌, Ok};
ghost use Rattle.report_io.specs.declared.report.Report.{Report};
ghost use Rattle.report_io.specs.Report.{IsRead, report_text};
ghost use Rattle.report_io.specs.Limits.{IsWithin};

use crate::report::Report;
use instance_io::laws::instance_reads_back;

/// The reading of a written report is that report and no other, where it is within the limits of the formats.
pub fn report_reads_back(report: &Report)
    requires { IsWithin report.now }
    ensures read { IsRead (report_text report.now) (Ok report.now) }
    ensures once { (other : Report) → IsRead (report_text report.now) (Ok other) → other ≡ report.now }
{
    instance_reads_back(&report.instance);
    let _count = report.instance.points.len();
    let _costs = report.instance.costs.list();
    let _name = report.instance.name.as_str();
    let _solution_name = report.solution_name.as_str();
}

/// A text fixes its report: two reports within the limits that are written alike are one.
pub fn text_fixes_report(one: &Report, other: &Report)
    requires one { IsWithin one.now }
    requires other { IsWithin other.now }
    ensures { report_text one.now ≡ report_text other.now → one.now ≡ other.now }
{
    report_reads_back(one);
    report_reads_back(other);
}
