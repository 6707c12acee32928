//! The image of a value in a representation.

ghost use Rattle.std.specs.Prelude.{◌≡◌, IfOk, Some, length};
ghost use Rattle.std.specs.FinMap as maps;
ghost use Rattle.std.specs.Result.{IfErr};
ghost use Rattle.nres_core.specs.declared.value.Value.TheVariants as v;
ghost use Rattle.target_code.specs.declared.tree.Rep.TheVariants as rep;
ghost use Rattle.sequences.specs.Keys.{IsRising};
ghost use Rattle.containers.specs.Sets as sets;
ghost use Rattle.relations.specs.Images as images;
ghost use Rattle.relations.specs.Represents.{IsSmall};
ghost use Rattle.image_laws.specs.Laws.{IsOfType, IsSmallValue};
ghost use Rattle.images.specs.Encoding.{seen, IsNoFit, IsOver};
ghost use Rattle.images.specs.declared.fit.NoFit.TheVariants as fit;

use crate::fit::NoFit;
use crate::{bounded, lists, tables};
use nres_core::{NumBag, NumMap, NumSet, Nums, Value};
use std::alloc::{AllocError, Global};
use target_code::{Image, Rep};

// The numbers of a set, ascending.
fn numbers_of(set: &NumSet) -> Result<Vec<u64>, AllocError>
    ensures { IfOk result (λ numbers. numbers.items ≡ sets.items set.now) }
{
    set.items()?.to_vec()
}

// The elements of a multiset, ascending.
fn elements_of(bag: &NumBag) -> Result<Vec<u64>, AllocError>
    ensures { IfOk result (λ numbers. numbers.items ≡ bag.now.list) }
{
    bag.items()?.to_vec()
}

// The image of rising numbers as bits.
fn bits_of(alloc: Global, numbers: &[u64], bound: u32) -> Result<Image, NoFit>
    requires { IsRising numbers.now }
    ensures image { IfOk result (λ i. images.bits_image bound numbers.now ≡ Some (seen i)) }
    ensures no_fit { IfErr result (λ e. IsOver bound numbers.now e) }
{
    match bounded::first_from(bound, numbers) {
        Some(number) => Err(NoFit::Element(number)),
        None => Ok(bounded::bits(alloc, bound, numbers)?),
    }
}

// The image of a set of bits.
fn bits(alloc: Global, set: &NumSet, bound: u32) -> Result<Image, NoFit>
    ensures image { IfOk result (λ i. images.image (rep.Bits bound) (v.Set set.now) ≡ Some (seen i)) }
    ensures no_fit { IfErr result (λ e. IsNoFit (rep.Bits bound) (v.Set set.now) e) }
{
    let numbers = numbers_of(set)?;
    bits_of(alloc, numbers.as_slice(), bound)
}

// The image of a set in a table.
fn set_table(alloc: Global, set: &NumSet) -> Result<Image, NoFit>
    requires { IsSmall (sets.len set.now) }
    ensures image { IfOk result (λ i. images.image rep.Hset (v.Set set.now) ≡ Some (seen i)) }
    ensures no_fit { IfErr result (λ e. IsNoFit rep.Hset (v.Set set.now) e) }
{
    let numbers = numbers_of(set)?;
    Ok(tables::set(alloc, numbers.as_slice())?)
}

// The image of entries with rising keys as marks.
fn marks_of(alloc: Global, entries: &[(u64, u64)], bound: u32) -> Result<Image, NoFit>
    requires { IsRising (images.keys_of entries.now) }
    ensures image { IfOk result (λ i. images.amap_image bound entries.now ≡ Some (seen i)) }
    ensures no_fit { IfErr result (λ e. IsOver bound (images.keys_of entries.now) e) }
{
    match bounded::first_key_from(bound, entries) {
        Some(key) => Err(NoFit::Element(key)),
        None => Ok(bounded::marks(alloc, bound, entries)?),
    }
}

// The image of a map of marks.
fn marks(alloc: Global, map: &NumMap, bound: u32) -> Result<Image, NoFit>
    ensures image { IfOk result (λ i. images.image (rep.Amap bound) (v.Map map.now) ≡ Some (seen i)) }
    ensures no_fit { IfErr result (λ e. IsNoFit (rep.Amap bound) (v.Map map.now) e) }
{
    let entries = map.entries()?;
    marks_of(alloc, entries.as_slice(), bound)
}

// The image of a map in a table.
fn map_table(alloc: Global, map: &NumMap) -> Result<Image, NoFit>
    requires { IsSmall (maps.len map.now) }
    ensures image { IfOk result (λ i. images.image rep.Hmap (v.Map map.now) ≡ Some (seen i)) }
    ensures no_fit { IfErr result (λ e. IsNoFit rep.Hmap (v.Map map.now) e) }
{
    let entries = map.entries()?;
    Ok(tables::map(alloc, entries.as_slice())?)
}

// The image of a list.
fn list(alloc: Global, list: &Nums, rep: Rep) -> Result<Image, NoFit>
    requires { IsOfType rep (v.List list.now) }
    ensures image { IfOk result (λ i. images.image rep (v.List list.now) ≡ Some (seen i)) }
    ensures no_fit { IfErr result (λ e. IsNoFit rep (v.List list.now) e) }
{
    let block = list.to_vec()?;
    match rep {
        Rep::Array => Ok(lists::array(alloc, block)?),
        _ => Ok(lists::roomy(alloc, block)?),
    }
}

// The image of a multiset.
fn heap(alloc: Global, bag: &NumBag) -> Result<Image, NoFit>
    ensures image { IfOk result (λ i. images.image rep.Heap (v.Bag bag.now) ≡ Some (seen i)) }
    ensures no_fit { IfErr result (λ e. IsNoFit rep.Heap (v.Bag bag.now) e) }
{
    let block = elements_of(bag)?;
    Ok(lists::roomy(alloc, block)?)
}

// The image of a set.
fn set(alloc: Global, set: &NumSet, rep: Rep) -> Result<Image, NoFit>
    requires of_type { IsOfType rep (v.Set set.now) }
    requires small { IsSmall (sets.len set.now) }
    ensures image { IfOk result (λ i. images.image rep (v.Set set.now) ≡ Some (seen i)) }
    ensures no_fit { IfErr result (λ e. IsNoFit rep (v.Set set.now) e) }
{
    match rep {
        Rep::Bits(bound) => bits(alloc, set, bound),
        _ => set_table(alloc, set),
    }
}

// The image of a map.
fn map(alloc: Global, map: &NumMap, rep: Rep) -> Result<Image, NoFit>
    requires of_type { IsOfType rep (v.Map map.now) }
    requires small { IsSmall (maps.len map.now) }
    ensures image { IfOk result (λ i. images.image rep (v.Map map.now) ≡ Some (seen i)) }
    ensures no_fit { IfErr result (λ e. IsNoFit rep (v.Map map.now) e) }
{
    match rep {
        Rep::Amap(bound) => marks(alloc, map, bound),
        _ => map_table(alloc, map),
    }
}

// The image of a number or a truth value.
fn register(alloc: Global, number: u64) -> Result<Image, NoFit>
    ensures image { IfOk result (λ i. seen i ≡ images.number number) }
    ensures no_fit { IfErr result (λ e. e ≡ fit.Memory) }
{
    Ok(lists::number(alloc, number)?)
}

/// The one image of a value, with fewer than 2^32 elements, in a representation of its type that is no slice. The first
/// register of a container is 0 and waits for the block's name.
///
/// # Errors
/// [`NoFit::Element`] has the least element or key that is not below the representation's bound, exactly where there
/// is one.
pub fn encode(alloc: Global, value: &Value, rep: Rep) -> Result<Image, NoFit>
    requires of_type { IsOfType rep value.now }
    requires small { IsSmallValue value.now }
    ensures image { IfOk result (λ i. images.image rep value.now ≡ Some (seen i)) }
    ensures no_fit { IfErr result (λ e. IsNoFit rep value.now e) }
{
    match value {
        Value::Nat(number) => register(alloc, *number),
        Value::Bool(truth) => register(alloc, u64::from(*truth)),
        Value::List(numbers) => list(alloc, numbers, rep),
        Value::Set(elements) => set(alloc, elements, rep),
        Value::Map(entries) => map(alloc, entries, rep),
        Value::Bag(elements) => heap(alloc, elements),
    }
}
