// Calls as lines: printed by their words and numbers, as they are read.
ghost use Rattle.protocol.specs.Forms.{call_of};
ghost use Rattle.std.specs.Prelude.{Some};
ghost use Rattle.text.specs.CallLines.{call_line};

use crate::answers::write_spaced;
use crate::{CallLine, list_word, word_of};
use std::fmt;

impl fmt::Display for CallLine {
    ghost output = { λ x. Some (call_line (call_of x.call x.list.items)) };

    fn fmt<W: fmt::Write>(&self, f: &mut fmt::Formatter<W>) -> fmt::Result {
        let verb = self.call.verb();
        let fields = self.call.fields();
        f.write_str(word_of(verb))?;
        write_spaced(f, &fields[..verb.field_count()])?;
        if verb.takes_list() {
            let word = list_word(verb);
            write!(f, " {word}")?;
            write_spaced(f, self.list.as_slice())?;
        }
        Ok(())
    }
}
