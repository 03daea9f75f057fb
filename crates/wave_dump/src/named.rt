// What is asked for by words: a fault by its name, and nets by a pattern.
ghost use Rattle.std.specs.Prelude.{◌≡◌, ◌++◌, find, flat_map, length};
ghost use Rattle.std.specs.Str.{bytes_eq};
ghost use Rattle.circuit.specs.Sound.{IsNetlist};
ghost use Rattle.fault_list.specs.Faults.{fault_name, faults_of};
ghost use Rattle.fm_base.specs.Lists.{below};
ghost use Rattle.rate_table.specs.Table.{matches};
ghost use Rattle.wave_dump.specs.Asked.{fault_given, fault_named, name_pattern, is_matched as is_matched_by, is_pattern as is_pattern_word, wants_all, wants_changed};
ghost use Rattle.wave_dump.specs.Steps.{is_fault_named, flips_of, pulses_on, stuck_faults, suffix};

use circuit::netlist::Netlist;
use circuit::parts::{Fault, NetId};
use fault_list::net_of;
use fm_base::{Line, Name};

// What stands behind the net in the name of a fault.
fn suffix_of(fault: Fault) -> Line
    ensures { result ≡ suffix fault }
{
    let mut text = Line::new();
    match fault {
        Fault::Stuck(_, value) => text.put(if value { b"/1" } else { b"/0" }),
        Fault::Flip(_, cycle) => {
            text.put(b"^");
            text.put_dec(u64::from(cycle));
        }
        Fault::Pulse(_, cycle) => {
            text.put(b"~");
            text.put_dec(u64::from(cycle));
        }
    }
    text
}

// Whether a text is these two, one behind the other.
fn is_joined(text: &[u8], first: &[u8], second: &[u8]) -> bool
    ensures { result ≡ bytes_eq (first.now ++ second.now) text.now }
{
    text.starts_with(first) && &text[first.len()..] == second
}

// Whether a fault has this name.
fn is_named(net: &Netlist, fault: Fault, name: &[u8]) -> bool
    ensures { result ≡ bytes_eq (fault_name net.now fault) name.now }
{
    is_joined(name, net.name(net_of(net, fault)), suffix_of(fault).bytes())
}

// The stuck-at fault on a net that has a name.
fn stuck_at(net: &Netlist, n: u32, name: &[u8]) -> Option<Fault>
    ensures { result ≡ find (is_fault_named net.now name.now) (stuck_faults n) }
{
    let low = Fault::Stuck(NetId(n), false);
    if is_named(net, low, name) {
        return Some(low);
    }
    let high = Fault::Stuck(NetId(n), true);
    if is_named(net, high, name) {
        return Some(high);
    }
    None
}

// The flip of a latch, in one of these cycles, that has a name.
fn flip_of(net: &Netlist, latch: u32, cycles: &[u32], name: &[u8]) -> Option<Fault>
    ensures { result ≡ find (is_fault_named net.now name.now) (flips_of cycles.now latch) }
{
    for cycle in cycles {
        let fault = Fault::Flip(latch, *cycle);
        if is_named(net, fault, name) {
            return Some(fault);
        }
    }
    None
}

// The same of a name that begins as that of the latch's net does: where it doesn't, no cycle is looked at.
fn flip_on(net: &Netlist, latch: u32, cycles: &[u32], name: &[u8]) -> Option<Fault>
    ensures { result ≡ find (is_fault_named net.now name.now) (flips_of cycles.now latch) }
{
    if name.starts_with(net.name(net_of(net, Fault::Flip(latch, 0)))) {
        flip_of(net, latch, cycles, name)
    } else {
        None
    }
}

// The pulse on a net, in one of these cycles, that has a name.
fn pulse_on(net: &Netlist, n: u32, cycles: &[u32], name: &[u8]) -> Option<Fault>
    ensures { result ≡ find (is_fault_named net.now name.now) (pulses_on cycles.now n) }
{
    for cycle in cycles {
        let fault = Fault::Pulse(NetId(n), *cycle);
        if is_named(net, fault, name) {
            return Some(fault);
        }
    }
    None
}

// The first stuck-at fault that has a name.
fn find_stuck(net: &Netlist, name: &[u8]) -> Option<Fault>
    ensures value { result ≡ find (is_fault_named net.now name.now) (flat_map stuck_faults (below (length net.now.drivers))) }
    ensures sound { IsNetlist net.now }
{
    for n in 0..net.nets() as u32 {
        if let Some(fault) = stuck_at(net, n, name) {
            return Some(fault);
        }
    }
    None
}

// The first flip that has a name.
fn find_flip(net: &Netlist, cycles: &[u32], name: &[u8]) -> Option<Fault>
    ensures { result ≡ find (is_fault_named net.now name.now) (flat_map (flips_of cycles.now) (below (length net.now.latches))) }
{
    for latch in 0..net.latches().len() as u32 {
        if let Some(fault) = flip_on(net, latch, cycles, name) {
            return Some(fault);
        }
    }
    None
}

// The first pulse that has a name.
fn find_pulse(net: &Netlist, cycles: &[u32], name: &[u8]) -> Option<Fault>
    ensures { result ≡ find (is_fault_named net.now name.now) (flat_map (pulses_on cycles.now) (below (length net.now.drivers))) }
{
    for n in 0..net.nets() as u32 {
        if let Some(fault) = pulse_on(net, n, cycles, name) {
            return Some(fault);
        }
    }
    None
}

// The fault that has a name, of those of a netlist with flips and pulses in these cycles.
fn find_fault(net: &Netlist, flips: &[u32], pulses: &[u32], name: &[u8]) -> Option<Fault>
    ensures value { result ≡ fault_named net.now (faults_of net.now flips.now pulses.now) name.now }
    ensures sound { IsNetlist net.now }
{
    if let Some(fault) = find_stuck(net, name) {
        return Some(fault);
    }
    if let Some(fault) = find_flip(net, flips, name) {
        return Some(fault);
    }
    find_pulse(net, pulses, name)
}

/// The fault of the name that is given.
pub(crate) fn given_fault(
    net: &Netlist,
    flips: &[u32],
    pulses: &[u32],
    name: &Option<Name>,
) -> Option<Fault>
    ensures { result ≡ fault_given net.now (faults_of net.now flips.now pulses.now) name.now }
{
    match name {
        Some(name) => find_fault(net, flips, pulses, name.as_slice()),
        None => None,
    }
}

// Whether a pattern has a star at its end.
fn has_star(text: &[u8]) -> bool
    ensures { result ≡ (name_pattern text.now).star }
{
    match text.last() {
        Some(byte) => *byte == b'*',
        None => false,
    }
}

// A pattern without the star at its end.
fn without_star(text: &[u8]) -> &[u8]
    ensures { result.now ≡ (name_pattern text.now).name }
{
    if has_star(text) {
        &text[..text.len() - 1]
    } else {
        text
    }
}

// Whether a pattern, as a rates file has it, matches the name of a net.
fn is_match(pattern: &[u8], name: &[u8]) -> bool
    ensures { result ≡ matches (name_pattern pattern.now) name.now }
{
    if has_star(pattern) {
        name.starts_with(without_star(pattern))
    } else {
        pattern == name
    }
}

/// Whether the pattern that is given matches the name of a net.
pub(crate) fn is_matched(word: &Option<Name>, name: &[u8]) -> bool
    ensures { result ≡ is_matched_by word.now name.now }
{
    match word {
        Some(pattern) => is_match(pattern.as_slice(), name),
        None => false,
    }
}

/// Whether all nets are to be shown.
pub(crate) fn is_all(fault: Option<Fault>, word: &Option<Name>) -> bool
    ensures { result ≡ wants_all fault word.now }
{
    match word {
        Some(word) => word.as_slice() == b"all".as_slice(),
        None => fault.is_none(),
    }
}

/// Whether the nets are to be shown that the fault changes.
pub(crate) fn is_differing(fault: Option<Fault>, word: &Option<Name>) -> bool
    ensures { result ≡ wants_changed fault word.now }
{
    match word {
        Some(word) => word.as_slice() == b"differing".as_slice(),
        None => fault.is_some(),
    }
}

/// Whether a word is given that is the pattern of a name.
pub(crate) fn is_pattern(fault: Option<Fault>, word: &Option<Name>) -> bool
    ensures { result ≡ is_pattern_word fault word.now }
{
    !is_all(fault, word) && !is_differing(fault, word)
}
