//! Names of files in the cache.
//!
//! - `cache-name H H`: address and path: the name, or `bad N`.
use cache_layout::NameErr;
use case_words::case_error::CaseError;
use case_words::hex_word::text_of;
use std::alloc::Global;

pub fn cache_name(alloc: Global, fields: &[&str]) -> Result<String, CaseError> {
    let [address, path] = fields else {
        return Err(CaseError::OutOfForm);
    };
    let address = text_of(alloc, address)?;
    let path = text_of(alloc, path)?;
    match cache_layout::cache_name(alloc, address.as_str(), path.as_str()) {
        Ok(name) => Ok(name.into_string()),
        Err(NameErr::BadAddress(place)) => Ok(format!(in alloc; "bad {place}")?),
        Err(NameErr::NoMemory) => Err(CaseError::NoMemory),
    }
}
