//! Each public function of configurations once, with ample memory, and refusals.
use crate::names::name;
use sn_config::*;
use sn_names::{Arg, Class, LinkSpec};
use std::alloc::Global;
use std::test::Fail;

/// Adds an app.
pub fn put_app(
    alloc: Global,
    config: &mut Config,
    app: &str,
    class: Class,
    arg: Option<&[u8]>,
) -> Result<(), Fail> {
    let app = name(alloc, app)?;
    match config.add_app(app, class, arg) {
        Ok(()) => Ok(()),
        Err(_) => Err("an app")?,
    }
}

/// A link.
pub fn link(alloc: Global, text: &str) -> Result<LinkSpec, Fail> {
    match LinkSpec::parse(alloc, text.as_bytes()) {
        Ok(link) => Ok(link),
        Err(_) => Err("a link")?,
    }
}

/// A configuration of a source `a` and another app, with one link.
pub fn linked(alloc: Global, to: &str, class: Class, text: &str) -> Result<Config, Fail> {
    let mut config = Config::new(alloc);
    put_app(alloc, &mut config, "a", Class::Source, None)?;
    put_app(alloc, &mut config, to, class, None)?;
    match config.add_link(link(alloc, text)?) {
        Ok(()) => Ok(config),
        Err(_) => Err("a link")?,
    }
}

/// What a configuration has under a name.
fn spec_of(alloc: Global, config: &Config, app: &str) -> Result<AppSpec, Fail> {
    let app = name(alloc, app)?;
    match config.apps().get(&app) {
        Some(spec) => Ok(spec.copy(alloc)?),
        None => Err("an app")?,
    }
}

#[test]
fn what_was_added_is_there(rt: HostRuntime) -> Result<(), Fail> {
    let alloc = rt.alloc();
    let mut config = linked(alloc, "b", Class::Sink, "a.out -> b.in")?;
    put_app(alloc, &mut config, "c", Class::ByteFilter, Some(b"12=255"))?;
    assert_eq!(rt; config.apps().len(), 3);
    assert_eq!(rt; config.links().len(), 1);
    let spec = spec_of(alloc, &config, "c")?;
    let class = Class::ByteFilter;
    let arg = Arg::Byte {
        offset: 12,
        value: 255,
    };
    assert!(rt; spec == AppSpec { class, arg });
    Ok(())
}

#[test]
fn an_argument_of_another_form_is_refused(rt: HostRuntime) -> Result<(), Fail> {
    let mut config = Config::new(rt.alloc());
    let app = name(rt.alloc(), "a")?;
    let refused = config.add_app(app, Class::Sample, Some(b"0"));
    assert!(rt; matches!(refused, Err(ConfigFault::BadArg)));
    Ok(())
}

#[test]
fn refused_port_app_event_tells_a_taken_port(rt: HostRuntime) -> Result<(), Fail> {
    let alloc = rt.alloc();
    let mut config = linked(alloc, "b", Class::Sink, "a.out -> b.in")?;
    put_app(alloc, &mut config, "c", Class::Sink, None)?;
    let refused = config.add_link(link(alloc, "a.out -> c.in")?);
    assert!(rt; matches!(refused, Err(ConfigFault::PortTaken)));
    assert_eq!(rt; config.links().len(), 1);
    Ok(())
}
