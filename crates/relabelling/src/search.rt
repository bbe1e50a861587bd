// The search for the least list of images, one vertex after another.
ghost use Rattle.std.specs.Prelude.{◌≡◌, ◌++◌, ◌∷◌, [], ◌<◌, ◌≤◌, true, false, IfOk, OnOk, IfSome, IfNone, IsTrue, is_some, unwrap_or, length, vec_len};
ghost use Rattle.std.specs.List.{list_all, zip};
ghost use Rattle.simplex.specs.Simplex.{has, is_label};
ghost use Rattle.facet_set.specs.Complex.{verts};
ghost use Rattle.facet_set.specs.Maps.{is_distinct};
ghost use Rattle.relabelling.specs.Colours.{colour};
ghost use Rattle.relabelling.specs.Search.{makes_map, seek, branch, LeadsKeepColours, LeadsNowhere};

use crate::colours::{Colours, all_differ, colour, marked, refine};
use facet_set::{Facets, image};
use simplex::Memory;
use std::alloc::Global;

/// Two complexes, of which the first is to be carried to the second.
#[derive(Clone, Copy)]
pub struct Sought<'a> {
    pub c: &'a Facets,
    pub d: &'a Facets,
    /// The vertices of c, which take images in this order.
    pub vertices: &'a [u32],
    /// The vertices of d.
    pub targets: &'a [u32],
}

/// Goes on from these images to the first whole list that makes a bijection. Where there is none, the images are as before.
#[cycle(search)]
pub fn search(
    alloc: Global,
    sought: &Sought,
    colours: &Colours,
    images: &mut Vec<u32>,
) -> Result<bool, Memory>
    requires vertices { sought.now.vertices.now ≡ verts sought.now.c.now }
    requires targets { sought.now.targets.now ≡ verts sought.now.d.now }
    requires labels { IsTrue (list_all is_label sought.now.targets.now) }
    requires images { IsTrue (list_all is_label images.old.items) }
    requires distinct { IsTrue (is_distinct images.old.items) }
    requires room { vec_len images.old ≤ length sought.now.vertices.now }
    requires kept { LeadsKeepColours sought.now.c.now sought.now.d.now images.old.items (colour colours.now.of_c) (colour colours.now.of_d) }
    ensures found { IfOk result (λ b. b ≡ is_some (seek sought.now.c.now sought.now.d.now images.old.items)) }
    ensures images { OnOk result (images.new.items ≡ unwrap_or (seek sought.now.c.now sought.now.d.now images.old.items) images.old.items) }
{
    if images.len() == sought.vertices.len() {
        return makes_map(alloc, sought, images);
    }
    for target in sought.targets {
        if leads(alloc, sought, colours, images, *target)? {
            return Ok(true);
        }
    }
    Ok(false)
}

#[cycle(search)]
fn leads(
    alloc: Global,
    sought: &Sought,
    colours: &Colours,
    images: &mut Vec<u32>,
    target: u32,
) -> Result<bool, Memory>
    requires vertices { sought.now.vertices.now ≡ verts sought.now.c.now }
    requires targets { sought.now.targets.now ≡ verts sought.now.d.now }
    requires labels { IsTrue (list_all is_label sought.now.targets.now) }
    requires images { IsTrue (list_all is_label images.old.items) }
    requires target { IsTrue (is_label target) }
    requires distinct { IsTrue (is_distinct images.old.items) }
    requires room { vec_len images.old < length sought.now.vertices.now }
    requires kept { LeadsKeepColours sought.now.c.now sought.now.d.now images.old.items (colour colours.now.of_c) (colour colours.now.of_d) }
    ensures found { IfOk result (λ b. b ≡ is_some (branch sought.now.c.now sought.now.d.now images.old.items target)) }
    ensures images { OnOk result (images.new.items ≡ unwrap_or (branch sought.now.c.now sought.now.d.now images.old.items target) images.old.items) }
{
    if differ(sought, colours, images, target) {
        return Ok(false);
    }
    if is_taken(images, target) {
        return Ok(false);
    }
    if colours.settled {
        return follow(alloc, sought, colours, images, target);
    }
    match told(alloc, sought, colours, images, target)? {
        Some(next) => follow(alloc, sought, &next, images, target),
        None => Ok(false),
    }
}

// Goes on with this image. Where that leads to no bijection, the images are as before.
#[cycle(search)]
fn follow(
    alloc: Global,
    sought: &Sought,
    colours: &Colours,
    images: &mut Vec<u32>,
    target: u32,
) -> Result<bool, Memory>
    requires vertices { sought.now.vertices.now ≡ verts sought.now.c.now }
    requires targets { sought.now.targets.now ≡ verts sought.now.d.now }
    requires labels { IsTrue (list_all is_label sought.now.targets.now) }
    requires images { IsTrue (list_all is_label images.old.items) }
    requires target { IsTrue (is_label target) }
    requires distinct { IsTrue (is_distinct images.old.items) }
    requires free { has images.old.items target ≡ false }
    requires room { vec_len images.old < length sought.now.vertices.now }
    requires kept { LeadsKeepColours sought.now.c.now sought.now.d.now (images.old.items ++ target ∷ []) (colour colours.now.of_c) (colour colours.now.of_d) }
    ensures found { IfOk result (λ b. b ≡ is_some (seek sought.now.c.now sought.now.d.now (images.old.items ++ target ∷ []))) }
    ensures images { OnOk result (images.new.items ≡ unwrap_or (seek sought.now.c.now sought.now.d.now (images.old.items ++ target ∷ [])) images.old.items) }
{
    images.push(target)?;
    if search(alloc, sought, colours, images)? {
        return Ok(true);
    }
    images.pop();
    Ok(false)
}

// The colours once the next vertex has this image. None only where no bijection gives it to that.
fn told(
    alloc: Global,
    sought: &Sought,
    colours: &Colours,
    images: &[u32],
    target: u32,
) -> Result<Option<Colours>, Memory>
    requires vertices { sought.now.vertices.now ≡ verts sought.now.c.now }
    requires room { length images.now < length sought.now.vertices.now }
    requires kept { LeadsKeepColours sought.now.c.now sought.now.d.now images.now (colour colours.now.of_c) (colour colours.now.of_d) }
    ensures kept { IfOk result (λ o. IfSome o (λ n. LeadsKeepColours sought.now.c.now sought.now.d.now (images.now ++ target ∷ []) (colour n.of_c) (colour n.of_d))) }
    ensures apart { IfOk result (λ o. IfNone o (LeadsNowhere sought.now.c.now sought.now.d.now (images.now ++ target ∷ []))) }
{
    let of_c = marked(&colours.of_c, sought.vertices[images.len()])?;
    let of_d = marked(&colours.of_d, target)?;
    let mut next = Colours {
        of_c,
        of_d,
        settled: false,
    };
    let fits = refine(
        alloc,
        sought.c,
        sought.d,
        &mut next,
        sought.c.as_slice().len(),
    )?;
    if !fits {
        return Ok(None);
    }
    next.settled = all_differ(alloc, &next.of_c)?;
    Ok(Some(next))
}

// Whether the next vertex and this image have other colours.
fn differ(sought: &Sought, colours: &Colours, images: &[u32], target: u32) -> bool
    requires vertices { sought.now.vertices.now ≡ verts sought.now.c.now }
    requires room { length images.now < length sought.now.vertices.now }
    requires kept { LeadsKeepColours sought.now.c.now sought.now.d.now images.now (colour colours.now.of_c) (colour colours.now.of_d) }
    ensures { result ≡ true → LeadsNowhere sought.now.c.now sought.now.d.now (images.now ++ target ∷ []) }
{
    let own = colour(&colours.of_c, sought.vertices[images.len()]);
    let other = colour(&colours.of_d, target);
    own != other
}

fn is_taken(images: &[u32], target: u32) -> bool
    ensures { result ≡ has images.now target }
{
    images.contains(&target)
}

// Whether the images of all vertices carry c to d.
fn makes_map(alloc: Global, sought: &Sought, images: &[u32]) -> Result<bool, Memory>
    requires vertices { sought.now.vertices.now ≡ verts sought.now.c.now }
    requires whole { length images.now ≡ length sought.now.vertices.now }
    requires labels { IsTrue (list_all is_label images.now) }
    requires distinct { IsTrue (is_distinct images.now) }
    ensures { IfOk result (λ b. b ≡ makes_map sought.now.c.now sought.now.d.now images.now) }
{
    let pairs = pairs(alloc, sought.vertices, images)?;
    let image = image(alloc, sought.c.as_slice(), &pairs)?;
    Ok(image.as_slice() == sought.d.as_slice())
}

/// The vertices with their images.
pub fn pairs(alloc: Global, vertices: &[u32], images: &[u32]) -> Result<Vec<(u32, u32)>, Memory>
    requires { length images.now ≡ length vertices.now }
    ensures { IfOk result (λ v. v.items ≡ zip vertices.now images.now) }
{
    let mut pairs = Vec::new(alloc);
    for i in 0..vertices.len() {
        pairs.push((vertices[i], images[i]))?;
    }
    Ok(pairs)
}
