//! The text of a sweep.

ghost use Rattle.std.specs.Prelude.{◌≡◌, ◌++◌, ◌<◌, OnOk, OnErr};
ghost use Rattle.std.specs.List.{count_by};
ghost use Rattle.ak_sweep.specs.declared.line.Line.{Line};
ghost use Rattle.ak_sweeps.specs.SweepText as rules;

use ak_address::print_number;
use ak_report::print_bytes;
use ak_sweep::Line;
use std::alloc::AllocError;

// A name and a number.
fn append_counted(name: &[u8], number: u64, text: &mut Vec<u8>) -> Result<(), AllocError>
    ensures { OnOk result (text.new.items ≡ text.old.items ++ rules.counted name.now number) }
{
    print_bytes(name, text)?;
    print_number(number, text)
}

fn margin_text(kept: bool) -> &'static [u8]
    ensures { result.now ≡ rules.margin_text kept }
{
    if kept {
        b" margin kept"
    } else {
        b" margin broken"
    }
}

fn doubles_text(double: bool) -> &'static [u8]
    ensures { result.now ≡ rules.doubles_text double }
{
    if double {
        b" doubles found"
    } else {
        b" doubles none"
    }
}

// The line of a seed. After an error some of it may be there.
fn append_line(line: &Line, text: &mut Vec<u8>) -> Result<(), AllocError>
    ensures { OnOk result (text.new.items ≡ text.old.items ++ rules.line_text line.now) }
{
    append_counted(b"seed ", line.seed, text)?;
    append_counted(b" steps ", line.steps, text)?;
    append_counted(b" packets ", line.packets, text)?;
    append_counted(b" history ", line.history, text)?;
    print_bytes(margin_text(line.kept), text)?;
    print_bytes(doubles_text(line.double), text)?;
    print_bytes(b"\n", text)
}

// The totals. After an error some of them may be there.
fn append_totals(lines: &[Line], text: &mut Vec<u8>) -> Result<(), AllocError>
    ensures { OnOk result (text.new.items ≡ text.old.items ++ rules.totals_text lines.now) }
{
    append_counted(b"seeds ", lines.len() as u64, text)?;
    append_counted(b" kept ", kept_in(lines), text)?;
    append_counted(b" doubles ", doubled_in(lines), text)?;
    print_bytes(b"\n", text)
}

// How many lines say that the margin was kept.
fn kept_in(lines: &[Line]) -> u64
    ensures { result ≡ count_by (λ (l : Line). l.kept) lines.now }
{
    lines.iter().filter(|line| line.kept).count() as u64
}

// How many lines say that there was a double.
fn doubled_in(lines: &[Line]) -> u64
    ensures { result ≡ count_by (λ (l : Line). l.double) lines.now }
{
    lines.iter().filter(|line| line.double).count() as u64
}

/// Whether a line says that there was a double.
pub(crate) fn is_doubled(lines: &[Line]) -> bool
    ensures { result ≡ rules.is_doubled lines.now }
{
    lines.iter().any(|line| line.double)
}

/// Prints the line of a seed by way of a text of its own: whole, or not at all.
pub(crate) fn print_line(
    line: &Line,
    text: &mut Vec<u8>,
    out: &mut Vec<u8>,
) -> Result<(), AllocError>
    ensures ok { OnOk result (out.new.items ≡ out.old.items ++ rules.line_text line.now) }
    ensures err { OnErr result (out.new.items ≡ out.old.items) }
{
    // Emptied before and not after, since an error may leave a part.
    text.clear();
    append_line(line, text)?;
    print_bytes(text, out)
}

/// Prints the totals of a sweep, whole or not at all.
pub(crate) fn print_totals(
    lines: &[Line],
    text: &mut Vec<u8>,
    out: &mut Vec<u8>,
) -> Result<(), AllocError>
    ensures ok { OnOk result (out.new.items ≡ out.old.items ++ rules.totals_text lines.now) }
    ensures err { OnErr result (out.new.items ≡ out.old.items) }
{
    // Emptied before and not after, since an error may leave a part.
    text.clear();
    append_totals(lines, text)?;
    print_bytes(text, out)
}
