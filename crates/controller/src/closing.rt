//! The end of a scan that was left open.
ghost use Rattle.std.specs.Prelude.{◌≡◌, true, false, is_ok, IfErr, OnOk};
ghost use Rattle.plain.specs.Stages.{scan_open};
ghost use Rattle.controller.specs.Standing.{stage_of};
ghost use Rattle.controller.specs.Calls.{held_fault, open_scan as scan_in};
ghost use Rattle.controller.specs.Closing.{closing_refusal, closed};

use crate::controller::Controller;
use crate::scans::{Held, OpenScan};

/// Spends the scan that a campaign left: works it, if that is to be done, and abandons it. Refused with 23 where that is not this
/// controller's phase (docs/controller.md), and the token comes back.
pub fn close(controller: &mut Controller, scan: OpenScan) -> Result<(), Held<OpenScan>>
    ensures fault { held_fault result ≡ closing_refusal scan (stage_of controller.old.phase) }
    ensures controller { OnOk result (controller.new ≡ closed scan controller.old) }
    ensures refused { IfErr result (λ h. (controller.new ≡ controller.old) × (h.scan ≡ scan)) }
    ensures own { scan ≡ scan_in controller.old.phase →
        (is_ok result ≡ true) × (scan_open (stage_of controller.new.phase) ≡ false) }
{
    let worked = match scan {
        OpenScan::Nothing => return Ok(()),
        OpenScan::Worked(scan) => scan,
        OpenScan::Sampled(scan) => match controller.work(scan) {
            Ok((_, scan)) => scan,
            Err(Held { scan, fault }) => {
                return Err(Held {
                    scan: OpenScan::Sampled(scan),
                    fault,
                });
            }
        },
    };
    controller.abandon(worked).map_err(|Held { scan, fault }| Held {
        scan: OpenScan::Worked(scan),
        fault,
    })
}
