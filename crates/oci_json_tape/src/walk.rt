//! Walks over the items of an array and the members of an object, in the order of the text.
ghost use Rattle.std.specs.Prelude.{◌≡◌, ◌<◌, length, option_map, None, MatchOption, OnSome};
ghost use Rattle.serde_json.specs.Data.{Data, Items as DataItems, Members as DataMembers, array, object, no_members};
ghost use Rattle.serde_json.specs.Find.{as_array, as_object};
ghost use Rattle.oci_json_tape.specs.Elements.{BeginsWithData};
ghost use Rattle.oci_json_tape.specs.Walked.{InItemsData, InMembersData, NextItemData, NextMemberData};

use json::{Element, Items, Members};

pub fn items<'t, 'a>(element: &Element<'t, 'a>) -> Option<Items<'t, 'a>>
    ensures { (d : Data) → BeginsWithData element.now d
        → MatchOption result (as_array d ≡ None)
        (λ rest. (ds : DataItems) × (d ≡ array ds) × InItemsData rest ds) }
{
    element.items()
}

pub fn next_item<'t, 'a>(items: &mut Items<'t, 'a>) -> Option<Element<'t, 'a>>
    ensures value { NextItemData items.old result items.new }
    ensures shorter { OnSome result (length items.new < length items.old) }
{
    items.next()
}

pub fn members<'t, 'a>(element: &Element<'t, 'a>) -> Option<Members<'t, 'a>>
    ensures { (d : Data) → BeginsWithData element.now d
        → MatchOption result (as_object d ≡ None)
        (λ rest. (out : DataMembers) × (d ≡ object out) × InMembersData rest no_members out) }
{
    element.members()
}

pub fn next_member<'t, 'a>(members: &mut Members<'t, 'a>) -> Option<(&'a str, Element<'t, 'a>)>
    ensures value { NextMemberData members.old (option_map (λ m. (m.0.now, m.1)) result)
        members.new }
    ensures shorter { OnSome result (length members.new < length members.old) }
{
    members.next()
}
