//! Configurations, and the scopes that they keep.
ghost use Rattle.std.specs.Prelude.{◌≡◌, ◌↔◌, IsTrue};
ghost use Rattle.scope_rules.specs.Kept.{is_kept, keeps_scope};

use res_base::DepRecord;

/// What a project is resolved for.
#[derive(Clone, Copy, Debug, PartialEq, Eq, Drop)]
pub enum Configuration {
    /// As `Runtime`.
    Default,
    /// To compile against the project.
    Compile,
    /// To run it.
    Runtime,
}

/// Whether two configurations are one.
pub fn is_same_configuration(one: Configuration, other: Configuration) -> bool
    ensures { IsTrue result ↔ (one ≡ other) }
{
    one == other
}

/// Whether a configuration keeps a scope, the text of the element `scope`.
fn keeps_scope(configuration: Configuration, scope: &str) -> bool
    ensures { result ≡ keeps_scope configuration scope.now }
{
    match configuration {
        Configuration::Compile => scope == "compile",
        Configuration::Default | Configuration::Runtime => {
            scope == "compile" || scope == "runtime"
        }
    }
}

/// Whether a configuration keeps a dependency: its scope is kept, and its `optional` is not `true`.
///
/// `Compile` keeps the scope `compile`; `Runtime` and `Default` keep `compile` and `runtime`. No
/// other text of a scope is kept, the empty one neither: what the Maven POM reference has an absent
/// scope stand for is put in before.
pub fn kept(configuration: Configuration, dep: &DepRecord) -> bool
    ensures { result ≡ is_kept configuration dep.now }
{
    keeps_scope(configuration, dep.scope.as_str()) && dep.optional.as_str() != "true"
}
