//! The texts that are built in.

ghost use Rattle.std.specs.Prelude.{◌≡◌, Some, None, MatchOption};
ghost use Rattle.nesc_macros.specs.Invocation.{same_name};
ghost use Rattle.nesc_preproc.specs.BuiltIn.{prelude, boot_interface, init_interface, main_component, built_in_text, is_built_in};

use nm_base::Name;

const PRELUDE: &str = "typedef char int8_t;            typedef unsigned char uint8_t;
typedef int int16_t;            typedef unsigned int uint16_t;
typedef long int32_t;           typedef unsigned long uint32_t;
typedef uint8_t bool;           enum { FALSE = 0, TRUE = 1 };
typedef uint8_t error_t @combine(\"ecombine\");
enum { SUCCESS = 0, FAIL = 1, ESIZE = 2, ECANCEL = 3, EOFF = 4, EBUSY = 5, EINVAL = 6,
       ERETRY = 7, ERESERVE = 8, EALREADY = 9, ENOMEM = 10, ENOACK = 11 };
error_t ecombine(error_t r1, error_t r2) { return r1 == r2 ? r1 : FAIL; }
";

const BOOT_INTERFACE: &str = "interface Boot { event void booted(); }
";

const INIT_INTERFACE: &str = "interface Init { command error_t init(); }
";

const MAIN_COMPONENT: &str =
    "module MainC { provides interface Boot; uses interface Init as SoftwareInit; }
implementation {
  default command error_t SoftwareInit.init() { return SUCCESS; }
  default event void Boot.booted() { }
  void boot() @spontaneous() {
    atomic { call SoftwareInit.init(); }
    signal Boot.booted();
  }
}
";

#[tactic(auto, unfolding(crate::specs::BuiltIn::prelude))]
fn prelude() -> &'static str
    ensures { result.now ≡ prelude }
{
    PRELUDE
}

fn is_called(name: &Name, text: &[u8]) -> bool
    ensures { result ≡ same_name name.now text.now }
{
    name.as_bytes() == text
}

/// The text of this name, where it is built in.
#[tactic(auto, unfolding(crate::specs::BuiltIn::built_in_text, crate::specs::BuiltIn::boot_interface, crate::specs::BuiltIn::init_interface, crate::specs::BuiltIn::main_component))]
pub(crate) fn built_in_text(name: &Name) -> Option<&'static str>
    ensures { MatchOption result (built_in_text name.now ≡ None) (λ t. built_in_text name.now ≡ Some t.now) }
{
    if is_called(name, b"prelude") {
        Some(prelude())
    } else if is_called(name, b"Boot.nc") {
        Some(BOOT_INTERFACE)
    } else if is_called(name, b"Init.nc") {
        Some(INIT_INTERFACE)
    } else if is_called(name, b"MainC.nc") {
        Some(MAIN_COMPONENT)
    } else {
        None
    }
}

/// Whether the text of this name is built in.
#[tactic(auto, unfolding(crate::specs::BuiltIn::is_built_in))]
pub(crate) fn is_built_in(name: &Name) -> bool
    ensures { result ≡ is_built_in name.now }
{
    built_in_text(name).is_some()
}
