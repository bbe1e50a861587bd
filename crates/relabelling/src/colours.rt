// Colours of labels, that a bijection of the vertices of one complex with those of another keeps.
ghost use Rattle.std.specs.Prelude.{◌≡◌, ◌+◌, ℕ, ◌==◌, false, IfOk, OnOk, if◌then◌else◌};
ghost use Rattle.simplex.specs.Simplex.{has};
ghost use Rattle.relabelling.specs.Colours.{colour, capped, mix, facet_colour, added, next_colour, complex_colour, StillKept, NoneKeeps};

use facet_set::Facets;
use simplex::{Memory, Simplex};
use std::alloc::Global;
use std::collections::HashMap;

/// Colours of the labels of two complexes. A label that a table lacks has the colour 0.
#[derive(Drop)]
pub struct Colours {
    pub of_c: HashMap<u32, u64>,
    pub of_d: HashMap<u32, u64>,
    /// Whether no two labels of the first complex were found to have one colour.
    pub settled: bool,
}

impl Colours {
    /// One colour for all.
    pub fn new(alloc: Global) -> Colours
        ensures c { (a : ℕ) → colour result.of_c a ≡ 0 }
        ensures d { (a : ℕ) → colour result.of_d a ≡ 0 }
    {
        Colours {
            of_c: HashMap::new(alloc),
            of_d: HashMap::new(alloc),
            settled: false,
        }
    }
}

/// The label's colour: 0 where it does not stand in the table.
pub fn colour(colours: &HashMap<u32, u64>, label: u32) -> u64
    ensures { result ≡ colour colours.now label }
{
    colours.get(&label).copied().unwrap_or(0)
}

/// The same colours, but that the label gets one of its own that depends on the one it had.
pub fn marked(colours: &HashMap<u32, u64>, label: u32) -> Result<HashMap<u32, u64>, Memory>
    ensures { IfOk
        result
        (λ t.
        (a : ℕ) →
        colour t a
        ≡ if label == a then mix (colour colours.now a) else colour colours.now a) }
{
    let mut next = copied(colours)?;
    mark(&mut next, label)?;
    Ok(next)
}

fn copied(colours: &HashMap<u32, u64>) -> Result<HashMap<u32, u64>, Memory>
    ensures { IfOk result (λ t. (a : ℕ) → colour t a ≡ colour colours.now a) }
{
    let copy = colours.clone()?;
    Ok(copy)
}

fn mark(colours: &mut HashMap<u32, u64>, label: u32) -> Result<(), Memory>
    ensures { OnOk
        result
        ((a : ℕ) →
        colour colours.new a
        ≡ if label == a then mix (colour colours.old a) else colour colours.old a) }
{
    let own = mix(colour(colours, label));
    colours.insert(label, own)?;
    Ok(())
}

/// Tells labels apart by the facets that hold them, in both complexes alike, until no more colours come, or for so many rounds.
/// False only where no bijection carries c to d and keeps the colours.
pub fn refine(
    alloc: Global,
    c: &Facets,
    d: &Facets,
    colours: &mut Colours,
    rounds: usize,
) -> Result<bool, Memory>
    ensures kept { OnOk
        result
        (StillKept
        c.now
        d.now
        (colour colours.old.of_c)
        (colour colours.old.of_d)
        (colour colours.new.of_c)
        (colour colours.new.of_d)) }
    ensures apart { IfOk
        result
        (λ b. b ≡ false → NoneKeeps c.now d.now (colour colours.old.of_c) (colour colours.old.of_d)) }
{
    let mut known = 0;
    for _ in 0..rounds {
        let fits = refine_once(alloc, c, d, colours)?;
        if !fits {
            return Ok(false);
        }
        let count = count_colours(alloc, &colours.of_c)?;
        if count <= known {
            break;
        }
        known = count;
    }
    Ok(true)
}

// False only where no bijection keeps the colours.
fn refine_once(alloc: Global, c: &Facets, d: &Facets, colours: &mut Colours) -> Result<bool, Memory>
    ensures kept { OnOk
        result
        (StillKept
        c.now
        d.now
        (colour colours.old.of_c)
        (colour colours.old.of_d)
        (colour colours.new.of_c)
        (colour colours.new.of_d)) }
    ensures apart { IfOk
        result
        (λ b. b ≡ false → NoneKeeps c.now d.now (colour colours.old.of_c) (colour colours.old.of_d)) }
{
    let of_c = next_colours(alloc, c.as_slice(), &colours.of_c)?;
    let of_d = next_colours(alloc, d.as_slice(), &colours.of_d)?;
    let all_c = complex_colour(c.as_slice(), &of_c);
    let all_d = complex_colour(d.as_slice(), &of_d);
    colours.of_c = of_c;
    colours.of_d = of_d;
    Ok(all_c == all_d)
}

/// Whether no two labels of the table have one colour.
pub fn all_differ(alloc: Global, colours: &HashMap<u32, u64>) -> Result<bool, Memory> {
    Ok(count_colours(alloc, colours)? == colours.len())
}

// How many colours stand in the table.
fn count_colours(alloc: Global, colours: &HashMap<u32, u64>) -> Result<usize, Memory> {
    let mut all: Vec<u64> = colours.values().copied().collect(alloc)?;
    all.sort_unstable();
    all.dedup();
    Ok(all.len())
}

// The colours of all labels of the facets, by their own and those of the facets that hold them.
fn next_colours(
    alloc: Global,
    facets: &[Simplex],
    colours: &HashMap<u32, u64>,
) -> Result<HashMap<u32, u64>, Memory>
    ensures { IfOk result (λ t. (a : ℕ) → colour t a ≡ next_colour (colour colours.now) facets.now a) }
{
    let mut next = HashMap::new(alloc);
    for facet in facets {
        add_shares(&mut next, colours, facet)?;
    }
    Ok(next)
}

fn add_shares(
    next: &mut HashMap<u32, u64>,
    colours: &HashMap<u32, u64>,
    facet: &Simplex,
) -> Result<(), Memory>
    ensures { OnOk
        result
        ((a : ℕ) →
        colour next.new a
        ≡ if has facet.now a
        then capped (colour next.old a + added (colour colours.now) facet.now a)
        else colour next.old a) }
{
    let whole = facet_colour(colours, facet);
    for label in facet.labels() {
        let amount = added(colours, whole, *label);
        add(next, *label, amount)?;
    }
    Ok(())
}

// What a facet of this colour adds to the colour of a label of its own.
fn added(colours: &HashMap<u32, u64>, whole: u64, label: u32) -> u64
    ensures { result ≡ mix (capped (whole + mix (colour colours.now label))) }
{
    mix(whole.saturating_add(mix(colour(colours, label))))
}

fn add(colours: &mut HashMap<u32, u64>, label: u32, amount: u64) -> Result<(), Memory>
    ensures { OnOk
        result
        ((a : ℕ) →
        colour colours.new a
        ≡ if label == a then capped (colour colours.old a + amount) else colour colours.old a) }
{
    let more = colour(colours, label).saturating_add(amount);
    colours.insert(label, more)?;
    Ok(())
}

fn facet_colour(colours: &HashMap<u32, u64>, facet: &Simplex) -> u64
    ensures { result ≡ facet_colour (colour colours.now) facet.now }
{
    let mut sum: u64 = 0;
    for label in facet.labels() {
        let number = mix(colour(colours, *label));
        sum = sum.saturating_add(number);
    }
    mix(sum)
}

// One number for the colours of all facets.
fn complex_colour(facets: &[Simplex], colours: &HashMap<u32, u64>) -> u64
    ensures { result ≡ complex_colour (colour colours.now) facets.now }
{
    let mut sum: u64 = 0;
    for facet in facets {
        let number = facet_colour(colours, facet);
        sum = sum.saturating_add(number);
    }
    sum
}

// A number of 40 bits that depends on each bit of this one.
fn mix(number: u64) -> u64
    ensures { result ≡ mix number }
{
    let once = number.wrapping_add(1).wrapping_mul(0x9E37_79B9_7F4A_7C15);
    (once ^ (once >> 32)).wrapping_mul(0xBF58_476D_1CE4_E5B9) >> 24
}
