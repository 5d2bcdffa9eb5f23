// One part of an input that should be a report.
ghost use Rattle.std.specs.Prelude.{IfOk};
ghost use Rattle.report_answers.specs.Answers.{IsPart};

use crate::answer::{ReportAnswer, Told};
use crate::checked::refused_report;
use mcp_outside::NoMemory;
use report_io::{Part, ReportFault, read_report, write_part};
use std::alloc::Global;

/// What `part NAME` answers to an input: the line of this part, as it is written.
pub fn part_of_text(alloc: Global, bytes: &[u8], part: Part) -> Result<ReportAnswer, NoMemory>
    ensures { IfOk result (λ answer. IsPart part bytes.now answer.told answer.text.items) }
{
    match read_report(alloc, bytes) {
        Ok(report) => {
            let _count = report.instance.points.len();
            let mut text = write_part(alloc, &report, part)?;
            text.push(b'\n')?;
            Ok(ReportAnswer {
                told: Told::Yes,
                text,
            })
        }
        Err(ReportFault::NoMemory) => Err(NoMemory),
        Err(fault) => refused_report(alloc, bytes, &fault),
    }
}
