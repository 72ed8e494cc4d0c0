//! A text, written whole.
ghost use Rattle.std.specs.Prelude.{◌≤◌, OnOk, IsErrOf};
ghost use Rattle.std.specs.Io.KnownBytes.{Appends};
ghost use Rattle.vx_ends.specs.Causes.{Rose, TellsAsBefore};
ghost use Rattle.vx_ends.specs.Moved.{AppendsFront};

use crate::sink::{Sink, SinkError};

/// Writes the text whole. After an error the sink has gained the front of it, perhaps nothing.
pub fn write_all<K: Sink>(sink: &mut K, text: &[u8]) -> Result<(), SinkError>
    ensures ok { OnOk result (Appends (K.held sink.old) (K.held sink.new) text.now) }
    ensures front { AppendsFront (K.held sink.old) (K.held sink.new) text.now }
    ensures fault { IsErrOf result SinkError.Failed → Rose (K.faults sink.old) (K.faults sink.new) }
    ensures monotone { K.faults sink.old ≤ K.faults sink.new }
    ensures tells { TellsAsBefore (K.held sink.old) (K.held sink.new) }
{
    let mut at = 0;
    'turns: while at < text.len() {
        at += sink.write(&text[at..])?;
    }
    Ok(())
}
