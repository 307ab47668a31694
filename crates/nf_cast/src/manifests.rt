//! The manifest of a C text.

use nf_core::{ListOf, NoMemory, Text, TextList, TryCopy};
use std::alloc::Global;

/// A name of a monitor: whether it is a head, its text, and its keys in the order of their cells.
#[derive(Debug, Drop)]
pub struct CName {
    pub is_head: bool,
    pub name: Text,
    pub keys: TextList,
}

/// A list of names, numbered from 0.
pub type CNameList = ListOf<CName>;

/// A manifest: its version, which is 1 or 2, its names, and its texts, numbered from 0.
#[derive(Debug, Drop)]
pub struct CManifest {
    pub version: u32,
    pub names: CNameList,
    pub texts: TextList,
}

impl TryCopy for CName {
    fn copy(&self, alloc: Global) -> Result<CName, NoMemory> {
        Ok(CName {
            is_head: self.is_head,
            name: self.name.copy(alloc)?,
            keys: self.keys.copy(alloc)?,
        })
    }
}

impl TryCopy for CManifest {
    fn copy(&self, alloc: Global) -> Result<CManifest, NoMemory> {
        Ok(CManifest {
            version: self.version,
            names: self.names.copy(alloc)?,
            texts: self.texts.copy(alloc)?,
        })
    }
}
