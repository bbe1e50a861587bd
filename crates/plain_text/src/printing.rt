ghost use Rattle.std.specs.Prelude.{◌≡◌, ◌++◌, ◌∷◌, map, decimal, OnOk, OnErr};
ghost use Rattle.std.specs.Fmt.{signed_decimal};
ghost use Rattle.std.specs.List.{join_with_byte};
ghost use Rattle.plain_text.specs.Printing.{bracketed_text, simplex_text, facets_text, GrowsByFront};

use itoa::Buffer;
use simplex::{Items, Memory, Simplex, Text};

/// What a reply prints in one way.
pub trait Printed {
    ghost use Rattle.std.specs.Prelude.{◌≡◌, ◌++◌, ℕ, List, OnOk, OnErr};
    ghost use Rattle.plain_text.specs.Printing.{GrowsByFront};

    ghost text: { Self → List ℕ };

    /// Appends the text. After `Memory` a front of it was appended.
    fn put(&self, out: &mut Text) -> Result<(), Memory>
        ensures text { OnOk result (out.new ≡ out.old ++ text self.now) }
        ensures front { OnErr result (GrowsByFront out.old out.new (text self.now)) };
}

impl Printed for u32 {
    ghost text = { decimal };

    fn put(&self, out: &mut Text) -> Result<(), Memory> {
        put_number(out, *self as i128)
    }
}

impl Printed for u64 {
    ghost text = { decimal };

    fn put(&self, out: &mut Text) -> Result<(), Memory> {
        put_number(out, *self as i128)
    }
}

impl Printed for i64 {
    ghost text = { signed_decimal };

    fn put(&self, out: &mut Text) -> Result<(), Memory> {
        put_number(out, *self as i128)
    }
}

impl Printed for i128 {
    ghost text = { signed_decimal };

    fn put(&self, out: &mut Text) -> Result<(), Memory> {
        put_number(out, *self)
    }
}

impl Printed for Simplex {
    ghost text = { simplex_text };

    fn put(&self, out: &mut Text) -> Result<(), Memory> {
        put_simplex(out, self)
    }
}

impl<T: Printed + Drop> Printed for Items<T> {
    ghost text = { λ xs. bracketed_text (map T.text xs) };

    fn put(&self, out: &mut Text) -> Result<(), Memory> {
        put_list(out, self.as_slice())
    }
}

/// Appends the number in decimal, with a leading `-` where it is negative. After `Memory` a front of the text was appended.
pub fn put_number(out: &mut Text, n: i128) -> Result<(), Memory>
    ensures text { OnOk result (out.new ≡ out.old ++ signed_decimal n) }
    ensures front { OnErr result (GrowsByFront out.old out.new (signed_decimal n)) }
{
    let mut buffer = Buffer::new();
    out.extend(buffer.format(n).as_bytes())
}

/// Appends the labels in order between brackets, divided by commas. After `Memory` a front of the text was appended.
pub fn put_simplex(out: &mut Text, s: &Simplex) -> Result<(), Memory>
    ensures text { OnOk result (out.new ≡ out.old ++ simplex_text s.now) }
    ensures front { OnErr result (GrowsByFront out.old out.new (simplex_text s.now)) }
{
    put_list(out, s.labels())
}

/// Appends the simplices in order between brackets, divided by commas. After `Memory` a front of the text was appended.
pub fn put_facets(out: &mut Text, f: &[Simplex]) -> Result<(), Memory>
    ensures text { OnOk result (out.new ≡ out.old ++ facets_text f.now) }
    ensures front { OnErr result (GrowsByFront out.old out.new (facets_text f.now)) }
{
    put_list(out, f)
}

/// Appends the items in order between brackets, divided by commas. After `Memory` a front of the text was appended.
pub fn put_list<T: Printed>(out: &mut Text, items: &[T]) -> Result<(), Memory>
    ensures text { OnOk result (out.new ≡ out.old ++ bracketed_text (map T.text items.now)) }
    ensures front { OnErr result (GrowsByFront out.old out.new (bracketed_text (map T.text items.now))) }
{
    out.push(b'[')?;
    put_items(out, items)?;
    out.push(b']')
}

fn put_items<T: Printed>(out: &mut Text, items: &[T]) -> Result<(), Memory>
    ensures text { OnOk result (out.new ≡ out.old ++ join_with_byte 44 (map T.text items.now)) }
    ensures front { OnErr result (GrowsByFront out.old out.new (join_with_byte 44 (map T.text items.now))) }
{
    let Some((first, rest)) = items.split_first() else {
        return Ok(());
    };
    first.put(out)?;
    for item in rest {
        put_next(out, item)?;
    }
    Ok(())
}

fn put_next<T: Printed>(out: &mut Text, item: &T) -> Result<(), Memory>
    ensures text { OnOk result (out.new ≡ out.old ++ 44 ∷ T.text item.now) }
    ensures front { OnErr result (GrowsByFront out.old out.new (44 ∷ T.text item.now)) }
{
    out.push(b',')?;
    item.put(out)
}
