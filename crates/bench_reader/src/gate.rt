// The gates of a netlist file, but for flip-flops.
ghost use Rattle.std.specs.Prelude.{◌≡◌, codes};
ghost use Rattle.std.specs.Option.{option_map};
ghost use Rattle.bench_reader.specs.Gates.{gate_named, gate_plane, gate_rule, is_word, takes_inputs};
ghost use Rattle.bench_reader.specs.Steps.{most_inputs};

/// What a gate does with its inputs.
#[derive(Clone, Copy, Debug, PartialEq, Eq)]
pub enum Gate {
    And,
    Nand,
    Or,
    Nor,
    Xor,
    Xnor,
    Not,
    Buffer,
}

/// Whether a name is this word, which is given in capitals, in letters of either case.
pub fn names_word(capitals: &[u8], name: &[u8]) -> bool
    ensures { result ≡ is_word capitals.now name.now }
{
    if name.len() != capitals.len() {
        return false;
    }
    for (i, capital) in capitals.iter().enumerate() {
        if name[i].to_ascii_uppercase() != *capital {
            return false;
        }
    }
    true
}

/// The gate of a word.
#[tactic(auto, unfolding(crate::specs::Gates::gate_named))]
pub fn gate_of(word: &[u8]) -> Option<Gate>
    ensures { option_map gate_rule result ≡ gate_named word.now }
{
    if names_word(b"AND", word) {
        return Some(Gate::And);
    }
    if names_word(b"NAND", word) {
        return Some(Gate::Nand);
    }
    if names_word(b"OR", word) {
        return Some(Gate::Or);
    }
    if names_word(b"NOR", word) {
        return Some(Gate::Nor);
    }
    if names_word(b"XOR", word) {
        return Some(Gate::Xor);
    }
    if names_word(b"XNOR", word) {
        return Some(Gate::Xnor);
    }
    if names_word(b"NOT", word) {
        return Some(Gate::Not);
    }
    if names_word(b"BUFF", word) {
        return Some(Gate::Buffer);
    }
    if names_word(b"BUF", word) {
        return Some(Gate::Buffer);
    }
    None
}

impl Gate {
    /// The most inputs that the gate may have; the least is 1.
    fn most(self) -> usize
        ensures { result ≡ most_inputs self }
    {
        match self {
            Gate::And | Gate::Nand | Gate::Or | Gate::Nor => 1024,
            Gate::Xor | Gate::Xnor => 8,
            Gate::Not | Gate::Buffer => 1,
        }
    }

    /// Whether the gate may have so many inputs.
    pub fn takes(self, inputs: usize) -> bool
        ensures { result ≡ takes_inputs self inputs }
    {
        inputs >= 1 && inputs <= self.most()
    }

    /// The value of the gate's table where a row matches.
    pub fn plane(self) -> bool
        ensures { result ≡ gate_plane self }
    {
        match self {
            Gate::And | Gate::Nor | Gate::Xor | Gate::Not | Gate::Buffer => true,
            Gate::Nand | Gate::Or | Gate::Xnor => false,
        }
    }
}
