// The digest that a result file's header carries.
ghost use Rattle.std.specs.Prelude.{◌≡◌, ◌++◌, ◌∷◌, [], ℕ, List, decimal};
ghost use Rattle.std.specs.List.{flat_map};
ghost use Rattle.sha2.specs.Hashers.{Holds256};
ghost use Rattle.fm_base.specs.Text.{spaced};
ghost use Rattle.result_file.specs.ResultText.{listed_words, settings_words, settings_line, stretch_text, stretch_words, own_digest};
ghost use Rattle.result_file.specs.Feeding.{digest_line, after_comma, cycles_fed};

use crate::text::put_digest;
use campaign_plan::Settings;
use fault_list::Stretch;
use fm_base::Line;
use itoa::Buffer;
use sha2::{Digest, Sha256};

fn feed_decimal(hasher: &mut Sha256, n: u32)
    ensures { (m : List ℕ) → Holds256 hasher.old m → Holds256 hasher.new (m ++ decimal n) }
{
    let mut buffer = Buffer::new();
    hasher.update(buffer.format(n).as_bytes());
}

// A comma and a number, for each of these.
fn feed_more(hasher: &mut Sha256, cycles: &[u32])
    ensures { (m : List ℕ) → Holds256 hasher.old m → Holds256 hasher.new (m ++ flat_map after_comma cycles.now) }
{
    for cycle in cycles {
        hasher.update(b",".as_slice());
        feed_decimal(hasher, *cycle);
    }
}

// Cycles joined by commas, or `none`.
fn feed_cycles(hasher: &mut Sha256, cycles: &[u32])
    ensures { (m : List ℕ) → Holds256 hasher.old m → Holds256 hasher.new (m ++ cycles_fed cycles.now) }
{
    match cycles {
        [] => hasher.update(b"none".as_slice()),
        [first, rest @ ..] => {
            feed_decimal(hasher, *first);
            feed_more(hasher, rest);
        }
    }
}

// The form of the line, the interval and the flip cycles.
fn feed_form(hasher: &mut Sha256, form: &[u8], ftti: u32, flips: &[u32])
    ensures { (m : List ℕ) → Holds256 hasher.old m
        → Holds256 hasher.new (m ++ (form.now ++ (decimal ftti ++ (32 ∷ [] ++ cycles_fed flips.now)))) }
{
    hasher.update(form);
    feed_decimal(hasher, ftti);
    hasher.update(b" ".as_slice());
    feed_cycles(hasher, flips);
}

// The words of settings with listed flips; pulse cycles are named only where there are some.
fn feed_words(hasher: &mut Sha256, ftti: u32, flips: &[u32], pulses: &[u32])
    ensures { (m : List ℕ) → Holds256 hasher.old m → Holds256 hasher.new (m ++ spaced (listed_words ftti flips.now pulses.now)) }
{
    if pulses.is_empty() {
        feed_form(hasher, b"fmeda-settings 1 ", ftti, flips);
    } else {
        feed_form(hasher, b"fmeda-settings 2 ", ftti, flips);
        hasher.update(b" ".as_slice());
        feed_cycles(hasher, pulses);
    }
}

// FIRST-LAST/STEP.
fn feed_stretch(hasher: &mut Sha256, stretch: Stretch)
    ensures { (m : List ℕ) → Holds256 hasher.old m → Holds256 hasher.new (m ++ stretch_text stretch) }
{
    feed_decimal(hasher, stretch.first);
    hasher.update(b"-".as_slice());
    feed_decimal(hasher, stretch.last);
    hasher.update(b"/".as_slice());
    feed_decimal(hasher, stretch.step);
}

// The words of settings with flips in a stretch.
fn feed_stretch_words(hasher: &mut Sha256, interval: u32, stretch: Stretch, pulses: &[u32])
    ensures { (m : List ℕ) → Holds256 hasher.old m → Holds256 hasher.new (m ++ spaced (stretch_words interval stretch pulses.now)) }
{
    hasher.update(b"fmeda-settings 3 ".as_slice());
    feed_decimal(hasher, interval);
    hasher.update(b" ".as_slice());
    feed_stretch(hasher, stretch);
    hasher.update(b" ".as_slice());
    feed_cycles(hasher, pulses);
}

// The words of the settings.
fn feed_settings_words(hasher: &mut Sha256, set: &Settings)
    ensures { (m : List ℕ) → Holds256 hasher.old m
        → Holds256 hasher.new (m ++ spaced (settings_words set.now.ftti set.now.stretch set.now.flips set.now.pulses)) }
{
    let pulses = set.pulses.as_slice();
    match set.stretch {
        Some(stretch) => feed_stretch_words(hasher, set.ftti, stretch, pulses),
        None => feed_words(hasher, set.ftti, set.flips.as_slice(), pulses),
    }
}

fn feed_settings(hasher: &mut Sha256, set: &Settings)
    ensures { (m : List ℕ) → Holds256 hasher.old m → Holds256 hasher.new (m ++ settings_line set.now) }
{
    feed_settings_words(hasher, set);
    hasher.update(b"\n".as_slice());
}

// A line with the digest of a file.
fn feed_file(hasher: &mut Sha256, bytes: &[u8])
    ensures { (m : List ℕ) → Holds256 hasher.old m → Holds256 hasher.new (m ++ digest_line bytes.now) }
{
    let mut line = Line::new();
    put_digest(&mut line, &Sha256::digest(bytes));
    line.put(b"\n");
    hasher.update(line.bytes());
}

/// The SHA-256 digest over the settings and the digests of the four files, which the header of a result file carries. The
/// level and the number of workers are no part of it, and files written without pulses stay of their plan.
pub fn own_digest(
    set: &Settings,
    netlist: &[u8],
    workload: &[u8],
    rates: &[u8],
    points: &[u8],
) -> [u8; 32]
    ensures { result ≡ own_digest set.now netlist.now workload.now rates.now points.now }
{
    let mut hasher = Sha256::new();
    feed_settings(&mut hasher, set);
    feed_file(&mut hasher, netlist);
    feed_file(&mut hasher, workload);
    feed_file(&mut hasher, rates);
    feed_file(&mut hasher, points);
    hasher.finalize()
}
