// Reading a line: its questions in their order, and what it writes.
ghost use Rattle.std.specs.Prelude.{List};
ghost use Rattle.tokens.specs.Tokens.{Token as PlainToken, Tokens};
ghost use Rattle.patterns.specs.declared.state.Form.TheVariants as forms;
ghost use Rattle.patterns.specs.Machine.{MachineExact};
ghost use Rattle.patterns.specs.Asking.{LineDetermined};
ghost use Rattle.reading.specs.Lines.{Patterned, Read, ReadRule, ReadFact};

use crate::checks::{check_bytes, check_length, check_words};
use crate::line::{FactLine, RuleLine};
use patterns::reader::{Reader, Tables};
use patterns::state::Form;
use questions::question::Refusal;
use tokens::lexer::Lexer;

// The pattern, and then the counts. The lexer is no iterator, since it may refuse without end.
fn read_pattern<'a>(line: &'a [u8], form: Form) -> Result<Tables<'a>, Refusal>
    requires { (ts : List PlainToken) × Tokens line.now ts }
    ensures { Patterned form line.entry result }
{
    let mut lexer = Lexer::new(line);
    let mut reader = Reader::new(form);
    while let Some(token) = lexer.next_token()? {
        reader.feed(token)?;
    }
    reader.finished(line.len())
}

// Each question is put to the whole line before the next one.
fn read<'a>(line: &'a [u8], form: Form) -> Result<Tables<'a>, Refusal>
    ensures { Read form line.entry result }
{
    check_length(line)?;
    check_bytes(line)?;
    check_words(line)?;
    read_pattern(line, form)
}

// A rule line, `label||| body -> head.`, with its words. Two functions and no generic one, since the two lines share no part but `read`.
pub fn read_rule<'a>(line: &'a [u8]) -> Result<RuleLine<'a>, Refusal>
    ensures read { ReadRule line.entry result }
    ensures determined { LineDetermined forms.Rule line.now }
    ensures machine { MachineExact forms.Rule }
{
    let Tables { label, body, head } = read(line, Form::Rule)?;
    Ok(RuleLine { label, body, head })
}

// A fact line, one atom and a full stop, with its words. Whether these are numbers is asked later.
pub fn read_fact<'a>(line: &'a [u8]) -> Result<FactLine<'a>, Refusal>
    ensures read { ReadFact line.entry result }
    ensures determined { LineDetermined forms.Fact line.now }
    ensures machine { MachineExact forms.Fact }
{
    let tables = read(line, Form::Fact)?;
    // The pattern has one atom.
    let atom = tables.body.atoms()[0];
    Ok(FactLine { atom })
}
