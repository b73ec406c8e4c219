//! Writes lines.
ghost use Rattle.std.specs.Prelude.{◌≡◌, ◌<◌, ◌⊎◌, OnOk, OnErr};
ghost use Rattle.std.specs.List.{concat};
ghost use Rattle.sync_base.specs.Outside.{Rose, gained};
ghost use Rattle.sync_cli.specs.Streams.{GainsPart, IsCutShort};

use sqlite_items::Items;
use sync_base::{Failed, Sink};

/// Hands the line to the sink until it is all taken.
pub fn write_line<K: Sink>(sink: &mut K, line: &[u8]) -> Result<(), Failed>
    ensures whole { OnOk result (K.got sink.new ≡ gained (K.got sink.old) line.now) }
    ensures sound { OnOk result (K.faults sink.new ≡ K.faults sink.old) }
    ensures part { OnErr result (GainsPart (K.got sink.old) (K.got sink.new) line.now) }
    ensures failed { OnErr result (Rose (K.faults sink.old) (K.faults sink.new)) }
{
    let mut rest = line;
    while !rest.is_empty() {
        let taken = sink.write(rest)?;
        rest = &rest[taken..];
    }
    Ok(())
}

/// Hands the lines to the sink, one after another. Nothing is written after a failed write.
pub fn write_lines<K: Sink>(sink: &mut K, lines: &[Items<u8>]) -> Result<(), Failed>
    ensures whole { OnOk result (K.got sink.new ≡ gained (K.got sink.old) (concat lines.now)) }
    ensures sound { OnOk result (K.faults sink.new ≡ K.faults sink.old) }
    ensures part { OnErr result (GainsPart (K.got sink.old) (K.got sink.new) (concat lines.now)) }
    ensures failed { OnErr result (Rose (K.faults sink.old) (K.faults sink.new)) }
{
    for line in lines {
        write_line(sink, line.as_slice())?;
    }
    Ok(())
}

/// Writes lines to `out` and then a text to `err`. Nothing is written after a failed write.
pub fn write_all<K: Sink, E: Sink>(
    out: &mut K,
    lines: &[Items<u8>],
    err: &mut E,
    err_text: &str,
) -> Result<(), Failed>
    ensures on_out { OnOk result (K.got out.new ≡ gained (K.got out.old) (concat lines.now)) }
    ensures on_err { OnOk result (E.got err.new ≡ gained (E.got err.old) err_text.now) }
    ensures sound_out { OnOk result (K.faults out.new ≡ K.faults out.old) }
    ensures sound_err { OnOk result (E.faults err.new ≡ E.faults err.old) }
    ensures part { OnErr result (IsCutShort (K.got out.old) (K.got out.new) (concat lines.now)
        (E.got err.old) (E.got err.new) err_text.now) }
    ensures failed { OnErr result (Rose (K.faults out.old) (K.faults out.new)
        ⊎ Rose (E.faults err.old) (E.faults err.new)) }
{
    write_lines(out, lines)?;
    write_line(err, err_text.as_bytes())
}
