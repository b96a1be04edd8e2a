// The text of a fault, byte for byte as arrow-json tells it.
#![tactic(auto)]

ghost use Rattle.std.specs.Prelude.{◌++◌, length};
ghost use Rattle.schema.specs.Opened.{TreeOf};
ghost use Rattle.schema.specs.Tree.{Node};
ghost use Rattle.tape.specs.Opened.{view_of};
ghost use Rattle.explain.specs.Explanation.{explanation, Explains};
ghost use Rattle.explain.specs.Puts.{PutsAll};
ghost use Rattle.explain.specs.Said.{said};
ghost use Rattle.explain.specs.Way.{way_to};

mod element;
mod fault;
pub mod laws;
mod sentence;
mod way;
mod writer;

use fault::Scene;
use leaf::Leaf;
use schema::Schema;
use schema::settings::Settings;
use sentence::Sentence;
use slip::Fault;
use tape::Tape;
use way::put_way;
use writer::Writer;

// Puts where a fault is and what it says into an area, and answers how long that is.
fn told(schema: Schema, node: usize, sentence: Sentence, area: &mut [u8]) -> usize
    ensures { (root : Node) → TreeOf schema.entry root → PutsAll (way_to node root ++ said sentence.entry) area.old area.new result }
{
    let mut w = Writer::new(area);
    put_way(&mut w, schema, node);
    sentence.put(&mut w);
    w.len()
}

// Writes the text of a fault over the first bytes of `text`, and answers its length.
// It is measured before a byte is written, so that a text that has no room leaves all as it was.
pub fn explain<X: Leaf>(
    schema: Schema,
    settings: Settings,
    custom: &X,
    tape: Tape,
    fault: Fault,
    text: &mut [u8],
) -> Result<usize, Fault>
    ensures { (root : Node) → TreeOf schema.entry root → Explains (explanation settings (X.Leaf.called custom.now) root (view_of tape.entry) fault (length text.old)) text.old text.new result }
{
    let scene = Scene {
        schema,
        settings,
        own: custom.word(),
        tape,
    };
    let Some(sentence) = scene.sentence(fault) else {
        return Err(Fault::NotThere);
    };
    let size = told(schema, fault.node(), sentence, &mut []);
    if size > text.len() {
        return Err(Fault::Full { node: 0 });
    }
    Ok(told(schema, fault.node(), sentence, text))
}
