//! The records of a kind of documents.
ghost use Rattle.std.specs.Prelude.{◌≡◌, map, IfOk, OnOk, nat_eq};
ghost use Rattle.std.specs.List.{list_any};
ghost use Rattle.oci_commands.specs.Tables.{AreRecordsOf, each_place, place_in, places_in, places_of, with_place};

use oci_schema::{Member, Part, Record, Records, Schema};
use std::alloc::{AllocError, Global};

/// The records that a schema names, and those that their members name, each once, in the order in which they are named. Fails if out of
/// memory.
pub fn records_of<T: Records>(
    table: &T,
    schema: &Schema,
    alloc: Global,
) -> Result<Vec<&'static Record>, AllocError>
    ensures { IfOk result (λ v. AreRecordsOf (T.shape_at table.now) schema.now (map (λ r. r.now) v.items)) }
{
    let mut places = Vec::new(alloc);
    let mut records = Vec::new(alloc);
    add_place(&mut places, schema)?;
    for index in 0..usize::MAX {
        let Some(place) = places.get(index) else {
            break;
        };
        let record = table.record(*place);
        add_places(&mut places, record.members)?;
        records.push(record)?;
    }
    Ok(records)
}

/// Adds the places of the records that members name, as far as they are new.
fn add_places(places: &mut Vec<usize>, members: &[Member]) -> Result<(), AllocError>
    ensures { OnOk result (places.new.items ≡ each_place places.old.items (places_of members.now)) }
{
    for member in members {
        add_place(places, &member.schema)?;
    }
    Ok(())
}

fn add_place(places: &mut Vec<usize>, schema: &Schema) -> Result<(), AllocError>
    ensures { OnOk result (places.new.items ≡ each_place places.old.items (places_in schema.now)) }
{
    match schema {
        Schema::One(part) | Schema::List(part) | Schema::Map(part) => add_part(places, part),
    }
}

fn add_part(places: &mut Vec<usize>, part: &Part) -> Result<(), AllocError>
    ensures { OnOk result (places.new.items ≡ each_place places.old.items (place_in part.now)) }
{
    match part {
        Part::Record(place) => add_new(places, *place),
        Part::Scalar(_) => Ok(()),
    }
}

fn add_new(places: &mut Vec<usize>, place: usize) -> Result<(), AllocError>
    ensures { OnOk result (places.new.items ≡ with_place place places.old.items) }
{
    if !has_place(places, place) {
        places.push(place)?;
    }
    Ok(())
}

fn has_place(places: &Vec<usize>, place: usize) -> bool
    ensures { result ≡ list_any (nat_eq place) places.now.items }
{
    for it in places {
        if place == *it {
            return true;
        }
    }
    false
}
