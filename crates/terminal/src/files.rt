use anyhow::anyhow;
use std::fs;
use std::fs::Files;

// The bytes of a file, or an error that names it.
pub fn read(rt: &(impl Files + AllocGlobal), path: &str) -> anyhow::Result<Vec<u8>> {
    fs::read(rt, path).map_err(|e| anyhow!("{path}: {e}"))
}
