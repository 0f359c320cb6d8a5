//! Damaged objects.
use crate::wares::{Ware, object_ware};
use fp_name::Digest;
use fpk_case_text::Harm;
use ost_content::{file_digest, is_permission, meta_digest};
use ost_model::Object;
use std::alloc::{AllocError, Global};

/// Returns what is at a remote in the place of an object that is damaged like this; none if it
/// can't be. A symlink can only be absent or replaced by a directory.
pub fn harmed(alloc: Global, object: &Object, harm: Harm) -> Result<Option<Ware>, AllocError> {
    match harm {
        Harm::Absent => Ok(Some(Ware::Nothing)),
        Harm::Folder => Ok(Some(Ware::Folder)),
        _ => match object_ware(alloc, object)? {
            Ware::File { mode, mut bytes } => {
                let mode = mode_after(harm, mode);
                change(&mut bytes, harm)?;
                Ok(Some(Ware::File { mode, bytes }))
            }
            _ => Ok(None),
        },
    }
}

fn mode_after(harm: Harm, mode: u32) -> u32 {
    match harm {
        Harm::Mode(other) => other,
        _ => mode,
    }
}

/// Damages the bytes of an object.
fn change(bytes: &mut Vec<u8>, harm: Harm) -> Result<(), AllocError> {
    match harm {
        Harm::Cut => {
            let _last = bytes.pop();
        }
        Harm::Longer => bytes.push(0)?,
        Harm::Turned => {
            if let Some(first) = bytes.first_mut() {
                *first ^= 1;
            }
        }
        _ => {}
    }
    Ok(())
}

/// Returns the digest of what is in the place of a damaged object; none if it is no file that a
/// repository may have.
pub fn harmed_digest(
    alloc: Global,
    object: &Object,
    harm: Harm,
) -> Result<Option<Digest>, AllocError> {
    let ware = harmed(alloc, object, harm)?;
    Ok(match (object, ware) {
        (Object::Meta(_), Some(Ware::File { bytes, .. })) => Some(meta_digest(&bytes)),
        (_, Some(Ware::File { mode, bytes })) if is_permission(mode) => {
            Some(file_digest(mode, &bytes))
        }
        _ => None,
    })
}
