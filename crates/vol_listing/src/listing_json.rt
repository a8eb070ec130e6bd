//! Listings as JSON.
ghost use Rattle.std.specs.Prelude.{◌≡◌, ◌++◌, IfOk, OnOk, map, string_bytes};
ghost use Rattle.std.specs.List.{flat_map};
ghost use Rattle.serde_json.specs.Data.{no_members};
ghost use Rattle.serde_json.specs.View.{members_view, view};
ghost use Rattle.vol_dir.specs.Tree.{tree};
ghost use Rattle.vol_layout.specs.Geometry.{Fits};
ghost use Rattle.vol_listing.specs.ListingJson.{kind_data, sort_word, row_data, entry_data, entries_data, all_data, json_text, with_numbers, with_file, with_device};

use crate::directories::{names, opens};
use crate::json::{entries_line, escaped_text, octal, put_count};
use crate::options::Depth;
use crate::places::{ListedNode, joined};
use crate::rows::{Row, Sort, row_at, special_word};
use pdp_words::Image;
use serde_json::{Map, Value, put};
use std::alloc::{AllocError, Global};
use vol_layout::Geometry;
use vol_volume::Bytes;

/// Returns one object on one line, with an entry for each name in a directory and in the given directories below it. A file, or a directory that is
/// listed itself, is one entry.
pub(crate) fn json_text(
    alloc: Global,
    image: &Image,
    geometry: &Geometry,
    depth: Depth,
    place: &ListedNode,
    places: &[ListedNode],
) -> Result<String, AllocError>
    requires { Fits geometry.now image.now }
    ensures { IfOk result (λ text. string_bytes text ≡ json_text (tree geometry.now image.now) depth place.now places.now) }
{
    let values = all_values(alloc, image, geometry, depth, place, places)?;
    entries_line(alloc, values)
}

/// Returns the objects of a listing's entries.
fn all_values(
    alloc: Global,
    image: &Image,
    geometry: &Geometry,
    depth: Depth,
    place: &ListedNode,
    places: &[ListedNode],
) -> Result<Vec<Value>, AllocError>
    requires { Fits geometry.now image.now }
    ensures { IfOk result (λ values. map view values.items ≡ all_data (tree geometry.now image.now) depth place.now places.now) }
{
    let mut values = Vec::new(alloc);
    if opens(image, geometry, depth, place.inode) {
        push_entries(alloc, image, geometry, place, &mut values)?;
        push_all(alloc, image, geometry, places, &mut values)?;
    } else {
        let row = row_at(image, geometry, place.inode);
        values.push(row_value(alloc, place.path.as_slice(), row)?)?;
    }
    Ok(values)
}

/// Appends the objects of the entries of directories.
fn push_all(
    alloc: Global,
    image: &Image,
    geometry: &Geometry,
    places: &[ListedNode],
    values: &mut Vec<Value>,
) -> Result<(), AllocError>
    requires { Fits geometry.now image.now }
    ensures { OnOk result (map view values.new.items ≡ map view values.old.items ++ flat_map (entries_data (tree geometry.now image.now)) places.now) }
{
    'places: for place in places {
        push_entries(alloc, image, geometry, place, values)?;
    }
    Ok(())
}

/// Appends the objects of the entries of a directory, in ascending order of their names.
#[tactic(auto, unfolding(crate::specs::ListingJson::entries_data))]
fn push_entries(
    alloc: Global,
    image: &Image,
    geometry: &Geometry,
    place: &ListedNode,
    values: &mut Vec<Value>,
) -> Result<(), AllocError>
    requires { Fits geometry.now image.now }
    ensures { OnOk result (map view values.new.items ≡ map view values.old.items ++ entries_data (tree geometry.now image.now) place.now) }
{
    let path = place.path.as_slice();
    let names = names(alloc, image, geometry, path)?;
    push_names(alloc, image, geometry, path, &names, values)?;
    Ok(())
}

/// Appends the objects of entries of the directory at a path.
fn push_names(
    alloc: Global,
    image: &Image,
    geometry: &Geometry,
    path: &[u8],
    names: &[(Bytes, u16)],
    values: &mut Vec<Value>,
) -> Result<(), AllocError>
    requires { Fits geometry.now image.now }
    ensures { OnOk result (map view values.new.items ≡ map view values.old.items ++ map (entry_data (tree geometry.now image.now) path.now) names.now) }
{
    'names: for (name, number) in names {
        let value = entry_value(alloc, image, geometry, path, name.as_slice(), *number)?;
        values.push(value)?;
    }
    Ok(())
}

/// Returns the object of an entry of the directory at a path.
fn entry_value(
    alloc: Global,
    image: &Image,
    geometry: &Geometry,
    path: &[u8],
    name: &[u8],
    number: u16,
) -> Result<Value, AllocError>
    requires { Fits geometry.now image.now }
    ensures { IfOk result (λ value. view value ≡ entry_data (tree geometry.now image.now) path.now (name.now, number)) }
{
    let path = joined(alloc, path, name)?;
    let value = row_value(alloc, &path, row_at(image, geometry, number))?;
    Ok(value)
}

/// Returns the object of a row at a path.
fn row_value(alloc: Global, path: &[u8], row: Row) -> Result<Value, AllocError>
    ensures { IfOk result (λ value. view value ≡ row_data path.now row) }
{
    let object = row_object(alloc, path, row)?;
    Ok(Value::Object(object))
}

/// Returns the members of the object of a row at a path.
pub(crate) fn row_object(
    alloc: Global,
    path: &[u8],
    row: Row,
) -> Result<Map<String, Value>, AllocError>
    ensures { IfOk result (λ object. members_view object.entries ≡ with_device row.sort (with_file path.now row (with_numbers row no_members))) }
{
    let mut object = Map::new(alloc);
    put_numbers(alloc, row, &mut object)?;
    put_file(alloc, path, row, &mut object)?;
    put_device(alloc, row.sort, &mut object)?;
    Ok(object)
}

/// Puts the numbers that every node has into an object.
#[tactic(auto, unfolding(crate::specs::ListingJson::with_numbers))]
fn put_numbers(alloc: Global, row: Row, object: &mut Map<String, Value>) -> Result<(), AllocError>
    ensures { OnOk result (members_view object.new.entries ≡ with_numbers row (members_view object.old.entries)) }
{
    put_count(alloc, object, "ino", u64::from(row.number))?;
    put_count(alloc, object, "links", u64::from(row.links))?;
    put_count(alloc, object, "gid", u64::from(row.gid))?;
    put_count(alloc, object, "uid", u64::from(row.uid))
}

/// Puts the path and the file's kind, permissions, size and time of change into an object.
#[tactic(auto, unfolding(crate::specs::ListingJson::with_file))]
fn put_file(
    alloc: Global,
    path: &[u8],
    row: Row,
    object: &mut Map<String, Value>,
) -> Result<(), AllocError>
    ensures { OnOk result (members_view object.new.entries ≡ with_file path.now row (members_view object.old.entries)) }
{
    let path = escaped_text(alloc, path)?;
    let kind = kind_value(alloc, row)?;
    let permissions = octal(alloc, row.permissions)?;
    put(object, alloc, "path", Value::String(path))?;
    put(object, alloc, "kind", kind)?;
    put(object, alloc, "permissions", permissions)?;
    put_count(alloc, object, "size", u64::from(row.size))?;
    put_count(alloc, object, "mtime", u64::from(row.modified))
}

/// Puts the device of a special file into an object.
fn put_device(alloc: Global, sort: Sort, object: &mut Map<String, Value>) -> Result<(), AllocError>
    ensures { OnOk result (members_view object.new.entries ≡ with_device sort (members_view object.old.entries)) }
{
    match sort {
        Sort::Regular | Sort::Directory => Ok(()),
        Sort::Character(device) | Sort::Block(device) => {
            put_count(alloc, object, "major", u64::from(device / 256))?;
            put_count(alloc, object, "minor", u64::from(device % 256))
        }
    }
}

/// Returns the kind of the node of a row as JSON, or null if it isn't known.
fn kind_value(alloc: Global, row: Row) -> Result<Value, AllocError>
    ensures { IfOk result (λ value. view value ≡ kind_data row) }
{
    if row.is_blank() {
        return Ok(Value::Null);
    }
    let word = String::from_str(alloc, sort_word(row.type_bits, row.sort))?;
    Ok(Value::String(word))
}

/// Returns the word for a kind of node, of a special file with this type.
fn sort_word(type_bits: u16, sort: Sort) -> &'static str
    ensures { result.now ≡ sort_word type_bits sort }
{
    match sort {
        Sort::Regular => "file",
        Sort::Directory => "directory",
        Sort::Character(_) | Sort::Block(_) => special_word(type_bits),
    }
}
