//! The texts of the files.

ghost use Rattle.std.specs.Prelude.{◌≡◌, ◌<◌, ◌+◌, ◌^◌, ◌++◌, ◌∷◌, [], IfOk, OnOk, map, string_bytes};
ghost use Rattle.std.specs.List.{flat_map, range_with_len};
ghost use Rattle.generated_files.specs.Generated as spec;

use nm_base::NoMemory;
use std::alloc::Global;
use std::fmt::Write;

// Module `k` in the list of components.
#[tactic(auto, using(crate::proofs::Pieces::listed_spelled))]
fn push_listed(text: &mut String, k: u32) -> Result<(), NoMemory>
    ensures { OnOk result (string_bytes text.new ≡ string_bytes text.old ++ spec.listed k) }
{
    write!(text, "G{k}C, ")?;
    Ok(())
}

// The line of its wire.
#[tactic(auto, using(crate::proofs::Pieces::wire_spelled))]
fn push_wire(text: &mut String, k: u32) -> Result<(), NoMemory>
    ensures { OnOk result (string_bytes text.new ≡ string_bytes text.old ++ (spec.wire k ++ 10 ∷ [])) }
{
    write!(text, "  G{k}C.Boot -> MainC;\n")?;
    Ok(())
}

// All modules in the list of components.
fn push_components(text: &mut String, n: u32) -> Result<(), NoMemory>
    ensures { OnOk result (string_bytes text.new ≡ string_bytes text.old ++ flat_map spec.listed (range_with_len 0 n)) }
{
    for k in 0..n {
        push_listed(text, k)?;
    }
    Ok(())
}

// The lines of all their wires.
fn push_wires(text: &mut String, n: u32) -> Result<(), NoMemory>
    ensures { OnOk result (string_bytes text.new ≡ string_bytes text.old ++ spec.text_of (map spec.wire (range_with_len 0 n))) }
{
    for k in 0..n {
        push_wire(text, k)?;
    }
    Ok(())
}

/// The text of the configuration of `n` modules.
pub(crate) fn configuration_text(alloc: Global, n: u32) -> Result<String, NoMemory>
    ensures { IfOk result (λ text. string_bytes text ≡ spec.configuration_text n) }
{
    let mut text = String::new(alloc);
    text.push_str("configuration GenAppC { }\nimplementation {\n  components MainC, ")?;
    push_components(&mut text, n)?;
    text.push_str("GenIrqC;\n")?;
    push_wires(&mut text, n)?;
    text.push_str("  GenIrqC.Boot -> MainC;\n}\n")?;
    Ok(text)
}

/// The text of module `k`.
pub(crate) fn module_text(alloc: Global, k: u32) -> Result<String, NoMemory>
    requires { k + 1 < 2 ^ 32 }
    ensures { IfOk result (λ text. string_bytes text ≡ spec.module_text k) }
{
    let step = k + 1;
    let text = format!(in alloc;
        "module G{k}C {{ uses interface Boot; }}
implementation {{
  uint16_t n;
  task void t() {{ n += {step}; port_write(0x0120, n); if (n < 3 * {step}) post t(); }}
  event void Boot.booted() {{ post t(); }}
}}
"
    )?;
    Ok(text)
}

/// The text of the module that line 2 enters.
pub(crate) fn interrupt_text(alloc: Global) -> Result<String, NoMemory>
    ensures { IfOk result (λ text. string_bytes text ≡ spec.interrupt_text) }
{
    let text = String::from_str(
        alloc,
        "module GenIrqC { uses interface Boot; }
implementation {
  uint16_t c;
  task void r() { uint16_t v; atomic v = c; port_write(0x0130, v); }
  void rx() @atomic_hwevent() @vector(2) { c++; post r(); }
  event void Boot.booted() { port_write(0x0100, 4); }
}
",
    )?;
    Ok(text)
}
