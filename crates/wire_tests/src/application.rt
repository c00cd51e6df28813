//! An application with its parent, a BOM and 40 modules, over two repositories.
use res_base::List;
use std::alloc::{AllocError, Global};
use std::test::Fail;

/// The repository of the application, its parent and its BOM.
const FIRST: Repository = Repository {
    address: "http://r1/maven",
    authority: "r1",
    base: "/maven",
};

/// The repository of the modules.
const SECOND: Repository = Repository {
    address: "http://r2:8081",
    authority: "r2:8081",
    base: "",
};

const PARENT: &str =
    "<project><groupId>com.acme</groupId><artifactId>parent</artifactId><version>1.0</version><packaging>pom</packaging><dependencyManagement><dependencies><dependency><groupId>com.acme</groupId><artifactId>bom</artifactId><version>${bom.version}</version><type>pom</type><scope>import</scope></dependency></dependencies></dependencyManagement></project>";

const BOM_HEAD: &str =
    "<project><groupId>com.acme</groupId><artifactId>bom</artifactId><version>2.0</version><packaging>pom</packaging><dependencyManagement><dependencies>";

const BOM_END: &str = "</dependencies></dependencyManagement></project>";

/// In ISO-8859-1, with one byte that is no ASCII.
const APP_HEAD: &[u8] =
    b"<?xml version=\"1.0\" encoding=\"ISO-8859-1\"?>\n<!-- application -->\n<project xmlns=\"http://maven.apache.org/POM/4.0.0\" xmlns:xsi=\"http://www.w3.org/2001/XMLSchema-instance\" xsi:schemaLocation=\"http://maven.apache.org/POM/4.0.0 http://maven.apache.org/xsd/maven-4.0.0.xsd\">\n<modelVersion>4.0.0</modelVersion>\n<parent><groupId>com.acme</groupId><artifactId>parent</artifactId><version>1.0</version><relativePath/></parent>\n<artifactId>app</artifactId>\n<name>S\xF8ren &oslash;</name>\n<properties><bom.version>2.0</bom.version></properties>\n<dependencies>\n";

const APP_END: &str =
    "<dependency><groupId>junit</groupId><artifactId>junit</artifactId><version>4.13</version><scope>test</scope></dependency>\n</dependencies>\n</project>\n";

/// A repository: its address, which is `http://`, where it is asked, and what stands before a path.
#[derive(Clone, Copy, Drop)]
pub(crate) struct Repository {
    pub(crate) address: &'static str,
    pub(crate) authority: &'static str,
    pub(crate) base: &'static str,
}

/// A path of a repository that is asked for, and the file there, where there is one.
#[derive(Drop)]
pub(crate) struct Asked {
    pub(crate) repository: Repository,
    pub(crate) path: String,
    pub(crate) file: Option<List<u8>>,
}

/// The name of a module.
fn module(alloc: Global, number: u32) -> Result<String, AllocError> {
    let tens = number / 10;
    let ones = number % 10;
    format!(in alloc; "m{tens}{ones}")
}

/// The POM of a module.
fn module_text(alloc: Global, name: &str) -> Result<String, AllocError> {
    format!(in alloc;
        "<project><modelVersion>4.0.0</modelVersion><groupId>com.acme</groupId><artifactId>{name}</artifactId><version>2.0</version><dependencies></dependencies></project>"
    )
}

/// The BOM, which manages each module.
fn bom_text(alloc: Global) -> Result<String, AllocError> {
    let mut text = String::from_str(alloc, BOM_HEAD)?;
    for number in 1u32..=40 {
        let name = module(alloc, number)?;
        text.push_str("<dependency><groupId>com.acme</groupId><artifactId>")?;
        text.push_str(name.as_str())?;
        text.push_str("</artifactId><version>${project.version}</version></dependency>")?;
    }
    text.push_str(BOM_END)?;
    Ok(text)
}

/// The application, which depends on each module.
fn app_bytes(alloc: Global) -> Result<List<u8>, AllocError> {
    let mut bytes = Vec::new(alloc);
    bytes.extend_from_slice(APP_HEAD)?;
    for number in 1u32..=40 {
        let name = module(alloc, number)?;
        bytes.extend_from_slice(b"<dependency><groupId>com.acme</groupId><artifactId>")?;
        bytes.extend_from_slice(name.as_bytes())?;
        bytes.extend_from_slice(b"</artifactId></dependency>\n")?;
    }
    bytes.extend_from_slice(APP_END.as_bytes())?;
    Ok(List::from_vec(bytes))
}

/// Adds the path of a POM with what stands there, and that of its checksum, which isn't there.
fn add_pom(
    alloc: Global,
    asked: &mut Vec<Asked>,
    repository: Repository,
    name: &str,
    version: &str,
    file: Option<List<u8>>,
) -> Result<(), Fail> {
    let path = format!(in alloc; "com/acme/{name}/{version}/{name}-{version}.pom")?;
    let checksum = format!(in alloc; "{path}.sha1")?;
    asked.push(Asked {
        repository,
        path,
        file,
    })?;
    asked.push(Asked {
        repository,
        path: checksum,
        file: None,
    })?;
    Ok(())
}

/// All that is asked to resolve the application, and nothing else.
pub(crate) fn application(alloc: Global) -> Result<Vec<Asked>, Fail> {
    let mut asked = Vec::new(alloc);
    let app = app_bytes(alloc)?;
    let parent = List::from_slice(alloc, PARENT.as_bytes())?;
    let bom = List::from_slice(alloc, bom_text(alloc)?.as_bytes())?;
    add_pom(alloc, &mut asked, FIRST, "app", "1.0", Some(app))?;
    add_pom(alloc, &mut asked, FIRST, "parent", "1.0", Some(parent))?;
    add_pom(alloc, &mut asked, FIRST, "bom", "2.0", Some(bom))?;
    for number in 1u32..=40 {
        let name = module(alloc, number)?;
        let text = module_text(alloc, name.as_str())?;
        let file = List::from_slice(alloc, text.as_bytes())?;
        add_pom(alloc, &mut asked, FIRST, name.as_str(), "2.0", None)?;
        add_pom(alloc, &mut asked, SECOND, name.as_str(), "2.0", Some(file))?;
    }
    Ok(asked)
}
