//! The properties of an object, with lists checked item by item: so one bad entry doesn't reject a
//! page of objects.

ghost use Rattle.std.specs.Prelude.{◌≡◌, ◌<◌, ◌∷◌, ◌++◌, [], suc, Some, IfOk, IfErr, IfSome};
ghost use Rattle.std.specs.Prelude.{IfNone, OnOk, length, option_map};
ghost use Rattle.json.specs.Json.{value, items, members};
ghost use Rattle.json.specs.Reads.{token_of};
ghost use Rattle.serde_json.specs.Data.{Data, Items as DataItems, Members, object, no_members};
ghost use Rattle.serde_json.specs.Read.{of_json, of_items, of_members, converted};
ghost use Rattle.stix_json.specs.Entries.{AreEntriesFor};
ghost use Rattle.stix_json.specs.Reading.{IsValueOf};
ghost use Rattle.stix_json.specs.inner.PropertyValue.{IsPropertyValue, HoldsProperties};
ghost use Rattle.stix_json.specs.inner.PropertyValue.{MayBePropertyValue, IsNotReadAsProperties};
ghost use Rattle.stix_json.specs.inner.PropertyValue.{IsNoObject, property_name, is_begin_array};
ghost use Rattle.stix_json.specs.inner.PropertyValue.{is_begin_object};
ghost use Rattle.stix_json.specs.inner.Insertion.{last_named};
ghost use Rattle.stix_json.specs.inner.Checking.{IsReadError};
ghost use Rattle.stix_json.specs.declared.property_value.TheConstants.{LEFT as LEVELS_LEFT};

use crate::checked::Checked;
use crate::limits::MAX_TEXT_LEVELS;
use crate::read::whole_text;
use crate::read_error::ReadError;
use crate::tokens::{check_token, take_value};
use crate::{Entry, JsonRefusal, MAX_LEVELS};
use flow_values::{Items, Name, NoMemory, Text};
use json::{Reader, Scratch, Token};
use std::alloc::Global;
use std::rc::Rc;

/// The most nested levels of a text inside a list of an object.
const LEFT: usize = MAX_TEXT_LEVELS - 2;

/// A property of an object, in source order.
#[derive(Drop)]
pub(crate) struct Property {
    pub name: Name,
    pub property_value: PropertyValue,
}

/// The value of a property.
#[derive(Drop)]
pub(crate) enum PropertyValue {
    /// A list, with each item checked on its own.
    List(Items<Entry>),
    /// Any other value.
    Value(Checked),
}

/// The properties of an object, in source order. `NotJson` if the bytes aren't JSON, `NotList` if
/// they aren't an object.
pub(crate) fn read_properties(alloc: Global, bytes: &[u8]) -> Result<Vec<Property>, JsonRefusal>
    ensures ok { IfOk result (λ properties. (ms : Members) × IsValueOf bytes.now (object ms)
        × HoldsProperties ms properties.items) }
    ensures err { IfErr result (λ refusal. IsNotReadAsProperties bytes.now refusal) }
{
    let whole = whole_text(alloc, bytes)?;
    let mut scratch = Scratch::new(alloc);
    let mut reader = match Reader::new(whole.as_str(), &mut scratch) {
        Ok(reader) => reader,
        Err(_) => return Err(JsonRefusal::NoMemory),
    };
    let properties = take_object(alloc, &whole, &mut reader)?;
    if reader.next().is_some() {
        drop(properties);
        return Err(JsonRefusal::NotJson);
    }
    properties.ok_or(JsonRefusal::NotList)
}

/// The properties of the next value. `None` if it isn't an object.
fn take_object(
    alloc: Global,
    whole: &Rc<Text>,
    reader: &mut Reader<'_>,
) -> Result<Option<Vec<Property>>, ReadError>
    ensures some { IfOk result (λ found. IfSome found (λ properties. (ms : Members)
        × (converted of_json (value (suc (suc LEVELS_LEFT)) reader.old)
        ≡ Some (object ms, reader.new)) × HoldsProperties ms properties.items)) }
    ensures none { IfOk result (λ found. IfNone found ((«data» : Data)
        × (converted of_json (value (suc (suc LEVELS_LEFT)) reader.old) ≡ Some («data», reader.new))
        × IsNoObject «data»)) }
    ensures err { IfErr result
        (λ read_error. IsReadError (converted of_json (value (suc (suc LEVELS_LEFT)) reader.old))
        read_error) }
{
    let location = reader.offset();
    let Some(token) = reader.next() else {
        return Err(ReadError::NotJson);
    };
    if opens_object(&token) {
        return Ok(Some(take_properties(alloc, whole, reader)?));
    }
    drop(check_token(
        alloc,
        whole,
        reader,
        location,
        token,
        MAX_TEXT_LEVELS,
        MAX_LEVELS,
    )?);
    Ok(None)
}

fn opens_object(token: &Token<'_>) -> bool
    ensures { result ≡ is_begin_object (token_of token.now) }
{
    match token {
        Token::BeginObject => true,
        Token::EndObject | Token::BeginArray | Token::EndArray | Token::Key(_) => false,
        Token::String(_) | Token::Number(_) | Token::Bool(_) | Token::Null | Token::Bad => false,
    }
}

fn opens_list(token: &Token<'_>) -> bool
    ensures { result ≡ is_begin_array (token_of token.now) }
{
    match token {
        Token::BeginArray => true,
        Token::BeginObject | Token::EndObject | Token::EndArray | Token::Key(_) => false,
        Token::String(_) | Token::Number(_) | Token::Bool(_) | Token::Null | Token::Bad => false,
    }
}

/// The properties up to the closing brace of their object.
fn take_properties(
    alloc: Global,
    whole: &Rc<Text>,
    reader: &mut Reader<'_>,
) -> Result<Vec<Property>, ReadError>
    ensures ok { IfOk result (λ properties. (ms : Members)
        × (converted (λ found. of_members found no_members)
        (members (value (suc LEVELS_LEFT)) (length reader.old) reader.old) ≡ Some (ms, reader.new))
        × HoldsProperties ms properties.items) }
    ensures err { IfErr result
        (λ read_error. IsReadError
        (converted (λ found. of_members found no_members)
        (members (value (suc LEVELS_LEFT)) (length reader.old) reader.old)) read_error) }
{
    let mut properties = Vec::new(alloc);
    'members: while let Some(name) = reader.next_key()? {
        let name = Name::from_text(alloc, name)?;
        let property_value = take_property_value(alloc, whole, reader)?;
        push_property(&mut properties, name, property_value)?;
    }
    Ok(properties)
}

/// Appends a property.
fn push_property(
    properties: &mut Vec<Property>,
    name: Name,
    property_value: PropertyValue,
) -> Result<(), NoMemory>
    ensures { OnOk result (properties.new.items
        ≡ properties.old.items ++ record { name = name; property_value = property_value } ∷ []) }
{
    properties.push(Property {
        name,
        property_value,
    })?;
    Ok(())
}

/// Reads the next value as the value of a property.
fn take_property_value(
    alloc: Global,
    whole: &Rc<Text>,
    reader: &mut Reader<'_>,
) -> Result<PropertyValue, ReadError>
    ensures ok { IfOk result (λ property_value. («data» : Data)
        × (converted of_json (value (suc LEVELS_LEFT) reader.old) ≡ Some («data», reader.new))
        × IsPropertyValue «data» property_value) }
    ensures err { IfErr result
        (λ read_error. IsReadError (converted of_json (value (suc LEVELS_LEFT) reader.old))
        read_error) }
    ensures shorter { OnOk result (length reader.new < length reader.old) }
{
    let location = reader.offset();
    let Some(token) = reader.next() else {
        return Err(ReadError::NotJson);
    };
    if opens_list(&token) {
        return Ok(PropertyValue::List(take_entries(alloc, whole, reader)?));
    }
    let checked = check_token(alloc, whole, reader, location, token, LEFT + 1, MAX_LEVELS)?;
    Ok(PropertyValue::Value(checked))
}

/// The entries of a list up to its closing bracket.
fn take_entries(
    alloc: Global,
    whole: &Rc<Text>,
    reader: &mut Reader<'_>,
) -> Result<Items<Entry>, ReadError>
    ensures ok { IfOk result (λ entries. (ds : DataItems)
        × (converted of_items (items (value LEVELS_LEFT) (length reader.old) reader.old)
        ≡ Some (ds, reader.new)) × AreEntriesFor ds entries) }
    ensures err { IfErr result
        (λ read_error. IsReadError
        (converted of_items (items (value LEVELS_LEFT) (length reader.old) reader.old))
        read_error) }
    ensures shorter { OnOk result (length reader.new < length reader.old) }
{
    let mut entries = Items::new(alloc);
    'items: while !reader.take_end_array() {
        let checked = take_value(alloc, whole, reader, LEFT, MAX_LEVELS)?;
        entries.push(checked.into_entry(alloc))?;
    }
    Ok(entries)
}

/// The value of the last property of this name.
pub(crate) fn property_value_under<'a>(
    properties: &'a [Property],
    name: &str,
) -> Option<&'a PropertyValue>
    ensures { option_map (λ property_value. property_value.now) result
        ≡ option_map (λ property. property.property_value)
        (last_named property_name name.now properties.now) }
{
    let mut found = None;
    for property in properties {
        if property.name.as_str() == name {
            found = Some(&property.property_value);
        }
    }
    found
}

/// Moves the value of the last property of this name out of the properties.
pub(crate) fn take_property_value_under(
    properties: Vec<Property>,
    name: &str,
) -> Option<PropertyValue>
    ensures { result ≡ option_map (λ property. property.property_value)
        (last_named property_name name.now properties.items) }
{
    let mut properties = properties;
    while let Some(property) = properties.pop() {
        if property.name.as_str() == name {
            return Some(property.property_value);
        }
        drop(property);
    }
    None
}
