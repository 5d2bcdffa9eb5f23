// The certificate and its value.
ghost use Rattle.std.specs.Prelude.{IfOk, MatchOption};
ghost use Rattle.report_io.specs.Limits.{AreLaterWithin};
ghost use Rattle.report_defs.specs.Verdicts.{IsVerdict, HasSolved};
ghost use Rattle.report_check.specs.Replays.{HasPrices};

use cert_check::{CertFault, check_certificate};
use mcp_outside::NoMemory;
use report_defs::Verdict;
use report_io::Report;
use std::alloc::Global;

/// What fails first of the certificate and its value, or none. More than 4,294,967,295 rows count as a want of memory.
pub fn certificate_fault(alloc: Global, report: &Report) -> Result<Option<Verdict>, NoMemory>
    requires within { AreLaterWithin report.now }
    requires solved { HasSolved report.now }
    ensures { IfOk result (λ fault. MatchOption fault (HasPrices report.now) (IsVerdict report.now)) }
{
    let instance = &report.instance;
    if report.certificate.rows.as_slice().len() > u32::MAX as usize {
        return Err(NoMemory);
    }
    match check_certificate(
        alloc,
        &instance.points,
        &instance.costs,
        &report.certificate,
    ) {
        Ok(value) if value == report.value => Ok(None),
        Ok(_) => Ok(Some(Verdict::NoValue)),
        Err(CertFault::NoMemory) => Err(NoMemory),
        Err(fault) => Ok(Some(Verdict::NoCertificate(fault))),
    }
}
