// Layers over a mesh, as the lines of a case name them from the bottom up.
use crate::reader::{Line, Lines, first_word};
use base::ids::HalfEdgeId;
use described::layers::{Layers, Pile};
use described::rows::short;
use std::alloc::Global;

// The lines up to that of the start; `None` if the pile is higher than those that are tried.
pub fn read_layers(heap: Global, lines: &mut Lines) -> anyhow::Result<Option<Layers>> {
    let mut pile = Some(Pile::Bare);
    let mut bars = Vec::new(heap);
    for _ in 0..lines.count() {
        let line = lines.next_line("layer, bar or start")?;
        let (word, rest) = line.first_word();
        match word {
            "layer" => pile = with_layer(pile, rest)?,
            // It stands on the layer named last.
            "bar" => bars.push(bar(rest)?)?,
            "start" => return Ok(pile.map(|pile| Layers { pile, bars })),
            _ => return Err(line.malformed("layer, bar or start").into()),
        }
    }
    Err(lines.malformed("start").into())
}

// What the words after `layer` put on top.
fn with_layer(pile: Option<Pile>, layer: Line) -> anyhow::Result<Option<Pile>> {
    match first_word(layer.text) {
        ("mirror", "") => Ok(pile.and_then(Pile::with_mirror)),
        ("bars", _) => Ok(pile.and_then(Pile::with_bars)),
        _ => Err(layer.malformed("layer mirror or layer bars TAG").into()),
    }
}

fn bar(code: Line) -> anyhow::Result<HalfEdgeId> {
    let code = short(code.text).ok_or(code.malformed("bar and a code"))?;
    Ok(HalfEdgeId(code))
}
