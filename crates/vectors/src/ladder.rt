//! A text fault on its way up through the layers, each of which passes it on by `?`.
ghost use Rattle.std.specs.Prelude.{◌≡◌, Err};
ghost use Rattle.faults.specs.declared.ChartFault.TheVariants.{Text as OfText};
ghost use Rattle.faults.specs.declared.CodeFault.TheVariants.{Chart as OfChart};
ghost use Rattle.faults.specs.declared.Fault.TheVariants.{Code as OfCode};

use faults::{ChartFault, CodeFault, Fault, TextFault};

fn read_text(fault: TextFault) -> Result<(), TextFault>
    ensures { result ≡ Err fault }
{
    Err(fault)
}

fn read_chart(fault: TextFault) -> Result<(), ChartFault>
    ensures { result ≡ Err (OfText fault) }
{
    read_text(fault)?;
    Ok(())
}

fn make_code(fault: TextFault) -> Result<(), CodeFault>
    ensures { result ≡ Err (OfChart (OfText fault)) }
{
    read_chart(fault)?;
    Ok(())
}

/// Refused with the text's fault, whatever it is.
pub fn climb(fault: TextFault) -> Result<(), Fault>
    ensures { result ≡ Err (OfCode (OfChart (OfText fault))) }
{
    make_code(fault)?;
    Ok(())
}
