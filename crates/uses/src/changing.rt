//! Changes one attribute of a list and keeps all others, including those of unknown types.

ghost use Rattle.std.specs.Prelude.{◌≡◌, ◌==◌, None, List, not, map, filter, IfOk, IfErr};
ghost use Rattle.std.specs.List.{list_any};
ghost use Rattle.netlink_packet_route.specs.Frame.{frame_fault};
ghost use Rattle.netlink_packet_route.specs.Table.{Decodes, Gives, written_kind, written_list};
ghost use Rattle.netlink_packet_route.specs.Vlan.{vlan_table, vlan_means};
ghost use Rattle.netlink_packet_route.specs.Wire.{Wire};
ghost use Rattle.uses.specs.Writing.{is_id, with_id, in_place_of, ChangeFails, OnChangeMemory};

use netlink_packet_route::link::{
    Attribute, InfoVlan, ListError, WriteError, read_list, write_list,
};
use std::alloc::{AllocError, Global};
use thiserror::Error;

/// Why a list was not changed.
#[derive(Debug, Drop, Error)]
pub enum ChangeError {
    /// An allocation failed.
    #[error("no memory")]
    Memory(AllocError),
    /// The list could not be parsed.
    #[error("{0}")]
    Read(ListError),
    /// The changed list could not be serialized.
    #[error("{0}")]
    Write(WriteError),
}

/// Returns the list of a VLAN device with every identifier replaced by `id`, or with `id` appended if the list has no
/// identifier.
///
/// # Errors
///
/// `Read` if the list does not decode, `Write` if a value does not fit in an attribute. If an allocation fails, `Read`
/// with `Memory`, which is possible only if the list starts with a whole attribute; or `Memory`, or `Write` with
/// `Memory`, each only if the list decodes.
pub fn with_vlan_id(alloc: Global, bytes: &[u8], id: u16) -> Result<Vec<u8>, ChangeError>
    ensures changed { IfOk result (λ out. (vs : List InfoVlan) × Wire (Gives vlan_table) bytes.now (map vlan_means vs)
        × (out.items ≡ written_list (map vlan_means (with_id id vs)))) }
    ensures failed { IfErr result (ChangeFails vlan_table vlan_means (with_id id) bytes.now) }
    ensures memory { OnChangeMemory result (frame_fault bytes.now ≡ None) (Decodes vlan_table bytes.now) }
{
    let values: Vec<InfoVlan> = read_list(alloc, bytes).map_err(ChangeError::Read)?;
    let changed = with_id(alloc, values, id).map_err(ChangeError::Memory)?;
    write_list(alloc, &changed).map_err(ChangeError::Write)
}

/// Replaces every identifier by `id`, or appends `id` if `values` has none.
fn with_id(alloc: Global, mut values: Vec<InfoVlan>, id: u16) -> Result<Vec<InfoVlan>, AllocError>
    ensures { IfOk result (λ changed. changed.items ≡ with_id id values.items) }
{
    if !has_id(&values) {
        values.push(InfoVlan::Id(id))?;
        return Ok(values);
    }
    let mut changed = Vec::with_capacity(alloc, values.len())?;
    changed.extend(
        values.into_iter().map(|value| match value {
            InfoVlan::Id(_) => InfoVlan::Id(id),
            other => other,
        }),
    )?;
    Ok(changed)
}

/// Checks whether `values` has an identifier.
fn has_id(values: &[InfoVlan]) -> bool
    ensures { result ≡ list_any is_id values.now }
{
    values.iter().any(|value| matches!(value, InfoVlan::Id(_)))
}

/// Returns the list without the attributes of the type of `new`, and with `new` appended.
///
/// # Errors
///
/// `Read` if the list does not decode, `Write` if a value does not fit in an attribute. If an allocation fails, `Read`
/// with `Memory`, which is possible only if the list starts with a whole attribute; or `Memory`, or `Write` with
/// `Memory`, each only if the list decodes.
pub fn with_attribute<F: Attribute>(
    alloc: Global,
    bytes: &[u8],
    new: F,
) -> Result<Vec<u8>, ChangeError>
    ensures changed { IfOk result (λ out. (vs : List F) × Wire (Gives F.table) bytes.now (map F.means vs)
        × (out.items ≡ written_list (map F.means (in_place_of F.means new vs)))) }
    ensures failed { IfErr result (ChangeFails F.table F.means (in_place_of F.means new) bytes.now) }
    ensures memory { OnChangeMemory result (frame_fault bytes.now ≡ None) (Decodes F.table bytes.now) }
{
    let mut values: Vec<F> = read_list(alloc, bytes).map_err(ChangeError::Read)?;
    remove(&mut values, new.kind());
    values
        .push(new)
        .map_err(|_| ChangeError::Memory(AllocError))?;
    write_list(alloc, &values).map_err(ChangeError::Write)
}

/// Removes the values of attribute type `kind`.
fn remove<F: Attribute>(values: &mut Vec<F>, kind: u16)
    ensures { values.new.items ≡ filter (λ v. not (written_kind (F.means v) == kind)) values.old.items }
{
    values.retain(|value| value.kind() != kind);
}
