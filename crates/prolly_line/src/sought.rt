//! What a proof is to show.

/// What a proof is to show.
#[derive(Debug, Drop)]
pub enum Sought {
    /// What the map has at a key.
    Key(Vec<u8>),
    /// Its pairs whose key is not less than `from`, and less than `to`; where there is no `to`, all
    /// whose key is not less than `from`.
    Range { from: Vec<u8>, to: Option<Vec<u8>> },
    /// What it has at each of the keys that the lines of the file of this name stand for.
    Keys(String),
}
