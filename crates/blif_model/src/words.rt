// The words of lines.
ghost use Rattle.std.specs.Prelude.{◌≡◌};
ghost use Rattle.blif_model.specs.StatementSteps.{begins_with_dot, is_edge, is_init, is_level, is_passed, starts_high};

/// Whether the text is the initial value of a latch: `0`, `1`, `2` or `3`.
pub fn is_init_value(name: &[u8]) -> bool
    ensures { result ≡ is_init name.now }
{
    name == b"0".as_slice()
        || name == b"1".as_slice()
        || name == b"2".as_slice()
        || name == b"3".as_slice()
}

/// Whether a latch with this initial value starts at 1.
pub fn is_high(name: &[u8]) -> bool
    ensures { result ≡ starts_high name.now }
{
    name == b"1".as_slice()
}

/// Whether the text is a type of latch that is read: `fe` or `re`.
pub fn is_edge_type(name: &[u8]) -> bool
    ensures { result ≡ is_edge name.now }
{
    name == b"fe".as_slice() || name == b"re".as_slice()
}

/// Whether the text is a type of latch that is known and refused: `ah`, `al` or `as`.
pub fn is_level_type(name: &[u8]) -> bool
    ensures { result ≡ is_level name.now }
{
    name == b"ah".as_slice() || name == b"al".as_slice() || name == b"as".as_slice()
}

/// Whether lines of this directive are read past.
pub fn is_read_past(name: &[u8]) -> bool
    ensures { result ≡ is_passed name.now }
{
    name == b".cname".as_slice() || name == b".attr".as_slice() || name == b".param".as_slice()
}

/// Whether the token is a directive: it begins with a dot.
pub fn has_dot(token: &[u8]) -> bool
    ensures { result ≡ begins_with_dot token.now }
{
    match token {
        [first, ..] => *first == b'.',
        [] => false,
    }
}
