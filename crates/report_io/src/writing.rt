// The text of a report, and of its parts.
ghost use Rattle.std.specs.Prelude.{◌≡◌, ◌++◌, map, IfOk};
ghost use Rattle.serde_json.specs.Written.{compact_text};
ghost use Rattle.text_defs.specs.Lines.{line_text};
ghost use Rattle.text_defs.specs.Texts.{instance_data, solution_data, with_costs};
ghost use Rattle.instance_io.specs.Refusal.{coordinates, cost_item, ends};
ghost use Rattle.report_io.specs.Report.{HasVersion, part_data, part_text, report_text};

use crate::certificate_text::push_certificate;
use crate::journal_text::push_journal;
use crate::report::{Part, Report};
use crate::summary_text::push_summary;
use instance_io::{Instance, Name, write_instance};
use mcp_outside::NoMemory;
use plane::Pair;
use solution_io::write_solution;
use std::alloc::Global;

/// The text of a report: five lines, each with its LF. (This project's own.)
pub fn write_report(alloc: Global, report: &Report) -> Result<Vec<u8>, NoMemory>
    requires { HasVersion report.now.summary }
    ensures { IfOk result (λ text. text.items ≡ report_text report.now) }
{
    let mut text = Vec::new(alloc);
    push_line(alloc, &mut text, report, Part::Instance)?;
    push_line(alloc, &mut text, report, Part::Solution)?;
    push_line(alloc, &mut text, report, Part::Certificate)?;
    push_line(alloc, &mut text, report, Part::Journal)?;
    push_line(alloc, &mut text, report, Part::Summary)?;
    Ok(text)
}

/// The text of one part of a report: its line without the LF.
pub fn write_part(alloc: Global, report: &Report, part: Part) -> Result<Vec<u8>, NoMemory>
    requires { HasVersion report.now.summary }
    ensures { IfOk result (λ text. text.items ≡ part_text report.now part) }
{
    let mut text = Vec::new(alloc);
    push_part(alloc, &mut text, report, part)?;
    Ok(text)
}

// Appends a part and an LF.
fn push_line(alloc: Global, text: &mut Vec<u8>, report: &Report, part: Part) -> Result<(), NoMemory>
    ensures { IfOk result (λ _. text.new.items ≡ text.old.items ++ line_text (part_data report.now part)) }
{
    push_part(alloc, text, report, part)?;
    text.push(b'\n')?;
    Ok(())
}

// Appends a part.
fn push_part(alloc: Global, text: &mut Vec<u8>, report: &Report, part: Part) -> Result<(), NoMemory>
    ensures { IfOk result (λ _. text.new.items ≡ text.old.items ++ compact_text (part_data report.now part)) }
{
    match part {
        Part::Instance => {
            push_instance(alloc, text, &report.instance)?;
            Ok(())
        }
        Part::Solution => {
            push_solution(
                alloc,
                text,
                &report.solution_name,
                report.solution.as_slice(),
            )?;
            Ok(())
        }
        Part::Certificate => {
            push_certificate(text, &report.certificate, report.value)?;
            Ok(())
        }
        Part::Journal => {
            push_journal(text, report.start.as_slice(), report.commits.as_slice())?;
            Ok(())
        }
        Part::Summary => {
            push_summary(text, &report.summary)?;
            Ok(())
        }
    }
}

fn push_instance(alloc: Global, text: &mut Vec<u8>, instance: &Instance) -> Result<(), NoMemory>
    ensures { IfOk result (λ _. text.new.items ≡ text.old.items
        ++ compact_text (with_costs (map cost_item instance.now.costs) (instance_data instance.now.name (map coordinates instance.now.points)))) }
{
    let line = write_instance(alloc, instance)?;
    text.extend_from_slice(&line)?;
    Ok(())
}

fn push_solution(
    alloc: Global,
    text: &mut Vec<u8>,
    name: &Name,
    pairs: &[Pair],
) -> Result<(), NoMemory>
    ensures { IfOk result (λ _. text.new.items ≡ text.old.items ++ compact_text (solution_data name.now (map ends pairs.now))) }
{
    let line = write_solution(alloc, name, pairs)?;
    text.extend_from_slice(&line)?;
    Ok(())
}
