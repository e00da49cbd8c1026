//! What a call asks for.

/// A layer of the front end: a text's tokens, or its tokens and then its tree.
#[derive(Clone, Copy, PartialEq, Eq)]
pub enum Layer {
    Tokens,
    Module,
}

/// A layer, a file, and how often the layer reads its text.
#[derive(Drop)]
pub struct Task<'a> {
    pub layer: Layer,
    pub file: &'a str,
    pub runs: u32,
}

/// The task of the words `tokens FILE N` or `module FILE N`, where N is a decimal number below 4294967296; else
/// None.
pub fn task_of(words: &[String]) -> Option<Task<'_>> {
    let [layer, file, runs] = words else {
        return None;
    };
    let layer = layer_of(layer.as_str())?;
    let runs = runs.as_str().parse().ok()?;
    Some(Task {
        layer,
        file: file.as_str(),
        runs,
    })
}

fn layer_of(word: &str) -> Option<Layer> {
    match word {
        "tokens" => Some(Layer::Tokens),
        "module" => Some(Layer::Module),
        _ => None,
    }
}
