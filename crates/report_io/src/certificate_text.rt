// The text of a certificate.
ghost use Rattle.std.specs.Prelude.{◌≡◌, ◌++◌, map, IfOk};
ghost use Rattle.serde_json.specs.Written.{comma_if, compact_text};
ghost use Rattle.instance_io.specs.Refusal.{ends};
ghost use Rattle.report_io.specs.Answers.{list_text};
ghost use Rattle.report_io.specs.Parts.{cross};
ghost use Rattle.report_io.specs.Report.{row_item, certificate_parts};
ghost use Rattle.report_io.specs.Texts.{row_data, certificate_data};

use crate::pieces::push_tagged;
use json_text::{push_comma, push_natural};
use mcp_outside::NoMemory;
use plane::Pair;
use price_defs::{Certificate, Row};

// Appends a certificate with the value that it is said to have.
pub(crate) fn push_certificate(
    text: &mut Vec<u8>,
    certificate: &Certificate,
    value: u64,
) -> Result<(), NoMemory>
    ensures { IfOk result (λ _. text.new.items
        ≡ text.old.items ++ compact_text (certificate_data (certificate_parts certificate.now value))) }
{
    text.extend_from_slice(b"{\"q\":")?;
    push_natural(text, certificate.q)?;
    text.extend_from_slice(b",\"rows\":[")?;
    push_rows(text, certificate.rows.as_slice())?;
    text.extend_from_slice(b",\"value\":")?;
    push_natural(text, value)?;
    text.push(b'}')?;
    Ok(())
}

// Appends the rows and the bracket behind them.
fn push_rows(text: &mut Vec<u8>, rows: &[Row]) -> Result<(), NoMemory>
    ensures { IfOk result (λ _. text.new.items ≡ text.old.items ++ list_text (map row_data (map row_item rows.now))) }
{
    for (place, row) in rows.iter().enumerate() {
        push_row(text, place > 0, row)?;
    }
    text.push(b']')?;
    Ok(())
}

// Appends a row, after a comma where it isn't the first.
fn push_row(text: &mut Vec<u8>, later: bool, row: &Row) -> Result<(), NoMemory>
    ensures { IfOk result (λ _. text.new.items
        ≡ text.old.items ++ (comma_if later ++ compact_text (row_data (row_item row.now)))) }
{
    push_comma(text, later)?;
    match row {
        Row::Half { p, q, w } => {
            push_tagged(text, b"[\"h\"", &[u64::from(*p), u64::from(*q), *w])?;
            Ok(())
        }
        Row::Three { p, w } => {
            push_tagged(text, b"[\"t\"", &[u64::from(*p), *w])?;
            Ok(())
        }
        Row::Cross { e, f, w } => {
            push_cross(text, *e, *f, *w)?;
            Ok(())
        }
        Row::Cap { e, w } => {
            push_tagged(text, b"[\"c\"", &[u64::from(e.lo()), u64::from(e.hi()), *w])?;
            Ok(())
        }
    }
}

fn push_cross(text: &mut Vec<u8>, e: Pair, f: Pair, w: u64) -> Result<(), NoMemory>
    ensures { IfOk result (λ _. text.new.items
        ≡ text.old.items ++ compact_text (row_data (cross (ends e) (ends f) w))) }
{
    let numbers = [
        u64::from(e.lo()),
        u64::from(e.hi()),
        u64::from(f.lo()),
        u64::from(f.hi()),
        w,
    ];
    push_tagged(text, b"[\"x\"", &numbers)?;
    Ok(())
}
