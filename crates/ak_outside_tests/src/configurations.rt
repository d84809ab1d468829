use ak_address::{Address, Text};
use ak_config::{Config, ConfigFault, read_config};
use ak_outside::{Folder, Loaded, MemoryFile, MemoryFolder};
use ak_settings::{Settings, Strategy};
use std::alloc::{AllocError, Global};
use std::test::Fail;

// All that must be there.
const NEEDED: &str = "self = \"a:1\"\nuid = 1\nlisted = [\"a:1\"]\nstrategy = \"down-all\"\n";

// A document, and the code and the key of its first fault; no code where it is accepted.
static WHOLE: [(&str, &str, &str); 41] = [
    (NEEDED, "", ""),
    ("", "C2", "self"),
    ("self = 1", "C4", "self"),
    ("self = \"a\"", "C6", "self"),
    ("self = \"a:1\"", "C2", "uid"),
    ("self = \"a:1\"\nuid = \"1\"", "C4", "uid"),
    ("self = \"a:1\"\nuid = 0", "C5", "uid"),
    ("self = \"a:1\"\nuid = 9223372036854775807", "C2", "listed"),
    ("self = \"a:1\"\nuid = 9223372036854775808", "C1", ""),
    ("self = \"a:1\"\nuid = 1\nlisted = 1", "C4", "listed"),
    ("self = \"a:1\"\nuid = 1\nlisted = []", "C5", "listed"),
    (
        "self = \"a:1\"\nuid = 1\nlisted = [\"a\", 1]",
        "C4",
        "listed",
    ),
    ("self = \"a:1\"\nuid = 1\nlisted = [\"a\"]", "C6", "listed"),
    (
        "self = \"a:1\"\nuid = 1\nlisted = [\"a:1\"]",
        "C2",
        "strategy",
    ),
    (
        "self = \"a:1\"\nuid = 1\nlisted = [\"a:1\"]\nstrategy = 1",
        "C4",
        "strategy",
    ),
    (
        "self = \"a:1\"\nuid = 1\nlisted = [\"a:1\"]\nstrategy = \"x\"",
        "C5",
        "strategy",
    ),
    (
        "self = \"a:1\"\nuid = 1\nlisted = [\"a:1\"]\nstrategy = \"static-quorum\"",
        "C2",
        "quorum",
    ),
    (
        "self = \"a:1\"\nuid = 1\nlisted = [\"a:1\"]\nstrategy = \"static-quorum\"\nquorum = 1",
        "",
        "",
    ),
    (
        "self = \"a:1\"\nuid = 1\nlisted = [\"a:1\"]\nstrategy = \"keep-majority\"\nquorum = 33",
        "C5",
        "quorum",
    ),
    (
        "self = \"a:1\"\nuid = 1\nlisted = [\"a:1\", \"a:01\"]\nstrategy = \"down-all\"",
        "C8",
        "listed",
    ),
    (
        "self = \"b:1\"\nuid = 1\nlisted = [\"a:1\"]\nstrategy = \"down-all\"",
        "C7",
        "self",
    ),
    (
        "self = \"b:1\"\nuid = 1\nlisted = [\"a:1\", \"a:1\"]\nstrategy = \"down-all\"",
        "C8",
        "listed",
    ),
    (
        "self = \"a:1\"\nuid = 1\nlisted = [\"a:1\"]\nstrategy = \"keep-oldest\"",
        "",
        "",
    ),
    (
        "self = \"a:1\"\nuid = 1\nlisted = [\"a:1\"]\nstrategy = \"keep-oldest\"\ndown-if-alone = 0",
        "C4",
        "down-if-alone",
    ),
    (
        "self = \"a:1\"\nuid = 1\nlisted = [\"a:1\"]\nstrategy = \"keep-oldest\"\ndown-if-alone = 0\nquorum = 33",
        "C5",
        "quorum",
    ),
    (
        "self = \"a:1\"\nuid = 1\nlisted = [\"a:1\"]\nstrategy = \"keep-oldest\"\ndown-if-alone = 0\nmargin = 0",
        "C4",
        "down-if-alone",
    ),
    (
        "self = \"a:1\"\nuid = 1\nlisted = [\"a:1\"]\nstrategy = \"keep-majority\"\ndown-if-alone = 0",
        "C4",
        "down-if-alone",
    ),
    (
        "self = \"a:1\"\nuid = 1\nlisted = [\"a:1\"]\nstrategy = \"static-quorum\"\ndown-if-alone = 0",
        "C2",
        "quorum",
    ),
    (
        "self = \"a:1\"\nuid = 1\nlisted = [\"a:1\"]\nstrategy = \"static-quorum\"\nquorum = 1\ndown-if-alone = 0",
        "C4",
        "down-if-alone",
    ),
    (
        "self = \"a:1\"\nuid = 1\nlisted = [\"a:1\"]\nstrategy = \"keep\"\ndown-if-alone = 0",
        "C5",
        "strategy",
    ),
    // An address is not listed, also where one is listed twice.
    (
        "self = \"a:1\"\nuid = 1\nlisted = [\"a:1\", \"a:1\"]\nstrategy = \"down-all\"\nrole = [\"a:1\", \"b:1\"]",
        "C5",
        "role",
    ),
    (
        "self = \"a:1\"\nuid = 1\nlisted = [\"a:1\", \"a:1\"]\nstrategy = \"down-all\"\nrole = [\"a:1\", \"a:1\"]",
        "C8",
        "listed",
    ),
    (
        "self = \"b:1\"\nuid = 1\nlisted = [\"a:1\"]\nstrategy = \"down-all\"\nrole = [\"a:1\", \"a:01\"]",
        "C8",
        "role",
    ),
    (
        "self = \"b:1\"\nuid = 1\nlisted = [\"a:1\"]\nstrategy = \"down-all\"\nrole = [\"a:1\"]",
        "C7",
        "self",
    ),
    (
        "self = \"b:1\"\nuid = 1\nlisted = [\"a:1\"]\nstrategy = \"down-all\"\nrole = [\"b:1\"]",
        "C5",
        "role",
    ),
    (
        "self = \"a:1\"\nuid = 1\nlisted = []\nstrategy = \"down-all\"\nrole = 1",
        "C5",
        "listed",
    ),
    ("self = 1\nz = 1\nb = 1\nuid = 0", "C3", "b"),
    ("\"\" = 1\nself = 1", "C3", ""),
    ("self = \"a:1\"\nself = \"a:1\"", "C1", ""),
    ("self", "C1", ""),
    ("[self]\nuid = 1", "C4", "self"),
];

// What follows the needed keys, and the first fault then.
static FURTHER: [(&str, &str, &str); 99] = [
    ("quorum = 0", "C5", "quorum"),
    ("quorum = 33", "C5", "quorum"),
    ("quorum = \"3\"", "C4", "quorum"),
    ("quorum = 32", "", ""),
    ("down-if-alone = true", "", ""),
    ("down-if-alone = false", "", ""),
    ("down-if-alone = 1", "C4", "down-if-alone"),
    ("down-if-alone = \"true\"", "C4", "down-if-alone"),
    ("down-if-alone = 1\nquorum = 0", "C5", "quorum"),
    ("down-if-alone = 1\nmargin = 0", "C4", "down-if-alone"),
    ("down_if_alone = true", "C3", "down_if_alone"),
    ("margin = 0", "C5", "margin"),
    ("margin = 1", "", ""),
    ("margin = 1000000", "", ""),
    ("margin = 1000001", "C5", "margin"),
    ("margin = 1.0", "C4", "margin"),
    ("margin = 2026-11-28", "C4", "margin"),
    ("margin = { a = 1 }", "C4", "margin"),
    ("[margin]", "C4", "margin"),
    ("margin = 1\nmargin = 2", "C1", ""),
    ("margin = 9223372036854775808", "C1", ""),
    ("margin = -9223372036854775808", "C5", "margin"),
    ("deadline = 0", "C5", "deadline"),
    ("deadline = 1000001", "C5", "deadline"),
    ("stable = 0", "C5", "stable"),
    ("stable = 1000001", "C5", "stable"),
    ("shards = 0", "C5", "shards"),
    ("shards = 1001", "C5", "shards"),
    ("buffer = 0", "C5", "buffer"),
    ("buffer = 100001", "C5", "buffer"),
    ("threshold = 0", "C5", "threshold"),
    ("threshold = 1001", "C5", "threshold"),
    ("limit = 0", "C5", "limit"),
    ("limit = 1001", "C5", "limit"),
    ("tick-ms = 0", "C5", "tick-ms"),
    ("tick-ms = 1000000", "", ""),
    ("tick-ms = 1000001", "C5", "tick-ms"),
    ("seed = -1", "C5", "seed"),
    ("seed = 0", "", ""),
    ("seed = 9223372036854775807", "", ""),
    ("seed = true", "C4", "seed"),
    ("found = true", "", ""),
    ("found = 1", "C4", "found"),
    ("join = 1", "C4", "join"),
    ("join = \"a\"", "C6", "join"),
    ("join = \"c:65535\"", "", ""),
    ("join = \"c:65536\"", "C6", "join"),
    ("weakly = 0", "", ""),
    ("weakly = 1000000", "", ""),
    ("weakly = 1000001", "C5", "weakly"),
    ("weakly = -1", "C5", "weakly"),
    ("weakly = true", "C4", "weakly"),
    ("weakly = true\njoin = \"a\"", "C6", "join"),
    ("role = [\"a:1\"]", "", ""),
    ("role = [\"a:00001\"]", "", ""),
    ("role = 1", "C4", "role"),
    ("role = \"a:1\"", "C4", "role"),
    ("role = { a = \"a:1\" }", "C4", "role"),
    ("role = []", "C5", "role"),
    ("role = [1]", "C4", "role"),
    ("role = [[\"a:1\"]]", "C4", "role"),
    ("role = [\"a\"]", "C6", "role"),
    ("role = [\"a:1#1\"]", "C6", "role"),
    ("role = [\"b:1\"]", "C5", "role"),
    ("role = [\"a:2\"]", "C5", "role"),
    ("role = [\"a:1\", \"a:1\"]", "C8", "role"),
    ("role = [\"a:1\", \"a:01\"]", "C8", "role"),
    // No string comes first, and then the others from the left.
    ("role = [\"a\", \"b:1\", 1]", "C4", "role"),
    ("role = [\"a\", \"b:1\"]", "C6", "role"),
    ("role = [\"b:1\", \"a\"]", "C5", "role"),
    ("role = [\"a:1\", \"a:1\", \"b:1\"]", "C5", "role"),
    ("role = [\"a:1\", \"a:1\", \"a\"]", "C6", "role"),
    ("role = 1\nweakly = 1000001", "C5", "weakly"),
    ("role = 1\nroles = 1", "C3", "roles"),
    ("Role = [\"a:1\"]", "C3", "Role"),
    ("types = [\"order\"]", "", ""),
    ("types = [\"order\", \"user\"]", "C5", "types"),
    ("shards = 500\ntypes = [\"order\", \"user\"]", "", ""),
    ("shards = 501\ntypes = [\"order\", \"user\"]", "C5", "types"),
    ("types = 1", "C4", "types"),
    ("types = \"order\"", "C4", "types"),
    ("types = []", "C5", "types"),
    ("types = [1]", "C4", "types"),
    ("types = [\"\", 1]", "C4", "types"),
    ("types = [\"\"]", "C5", "types"),
    ("types = [\"order/1\"]", "C5", "types"),
    (
        "shards = 1\ntypes = [\"a\", \"b\", \"c\", \"d\", \"e\", \"f\", \"g\", \"h\"]",
        "",
        "",
    ),
    (
        "shards = 1\ntypes = [\"a\", \"b\", \"c\", \"d\", \"e\", \"f\", \"g\", \"h\", \"i\"]",
        "C5",
        "types",
    ),
    (
        "shards = 1\ntypes = [\"Az-_09\", \"01234567890123456789012345678901\"]",
        "",
        "",
    ),
    (
        "shards = 1\ntypes = [\"012345678901234567890123456789012\"]",
        "C5",
        "types",
    ),
    ("shards = 1\ntypes = [\"a\", \"b c\"]", "C5", "types"),
    ("shards = 1\ntypes = [\"a\", \"a\"]", "C8", "types"),
    ("types = [\"a\", \"a\"]", "C5", "types"),
    (
        "role = [\"a:1\", \"a:1\"]\nshards = 1\ntypes = [\"a\", \"a\"]",
        "C8",
        "role",
    ),
    ("types = 1\nrole = 1", "C4", "role"),
    ("limit = 0\nmargin = 0", "C5", "margin"),
    ("limit = true\nmargin = 0", "C5", "margin"),
    ("margin = 0\nlimits = 1", "C3", "limits"),
    ("selves = 1\nmargin = 0\nMargin = 1", "C3", "Margin"),
];

fn is_key(key: &Text, wanted: &str) -> bool {
    key.bytes() == wanted.as_bytes()
}

fn is_fault(fault: &ConfigFault, code: &str, key: &str) -> bool {
    match fault {
        ConfigFault::NotToml => code == "C1",
        ConfigFault::Missing(at) => code == "C2" && is_key(at, key),
        ConfigFault::Unknown(at) => code == "C3" && is_key(at, key),
        ConfigFault::WrongType(at) => code == "C4" && is_key(at, key),
        ConfigFault::Range(at) => code == "C5" && is_key(at, key),
        ConfigFault::BadAddress(at) => code == "C6" && is_key(at, key),
        ConfigFault::SelfUnlisted(at) => code == "C7" && is_key(at, key),
        ConfigFault::Repeated(at) => code == "C8" && is_key(at, key),
        ConfigFault::NoMemory(_) => false,
    }
}

fn is_answered(alloc: Global, document: &[u8], code: &str, key: &str) -> bool {
    match read_config(alloc, document) {
        Ok(_) => code == "",
        Err(fault) => is_fault(&fault, code, key),
    }
}

fn whole_answered(alloc: Global, cases: &[(&str, &str, &str)]) -> bool {
    'cases: for (document, code, key) in cases {
        if !is_answered(alloc, document.as_bytes(), code, key) {
            return false;
        }
    }
    true
}

fn further_answered(alloc: Global, cases: &[(&str, &str, &str)]) -> Result<bool, AllocError> {
    'cases: for (more, code, key) in cases {
        let document = format!(in alloc; "{NEEDED}{more}\n")?;
        if !is_answered(alloc, document.as_bytes(), code, key) {
            return Ok(false);
        }
    }
    Ok(true)
}

#[test]
fn configurations_have_their_first_fault(rt: HostRuntime) -> Result<(), Fail> {
    assert!(rt; whole_answered(rt.alloc(), &WHOLE));
    assert!(rt; further_answered(rt.alloc(), &FURTHER)?);
    assert!(rt; is_answered(rt.alloc(), b"self = \"\xff\"", "C1", ""));
    Ok(())
}

// A document, and what its first fault shows.
static SHOWN: [(&str, &str); 8] = [
    ("self", "C1"),
    ("", "C2"),
    ("z = 1", "C3"),
    ("self = 1", "C4"),
    ("self = \"a:1\"\nuid = 0", "C5"),
    ("self = \"a\"", "C6"),
    (
        "self = \"b:1\"\nuid = 1\nlisted = [\"a:1\"]\nstrategy = \"down-all\"",
        "C7",
    ),
    (
        "self = \"a:1\"\nuid = 1\nlisted = [\"a:1\", \"a:1\"]\nstrategy = \"down-all\"",
        "C8",
    ),
];

fn shows(alloc: Global, fault: &ConfigFault, code: &str) -> Result<bool, AllocError> {
    Ok(format!(in alloc; "{fault}")?.as_str() == code)
}

fn all_show(alloc: Global, cases: &[(&str, &str)]) -> Result<bool, AllocError> {
    'cases: for (document, code) in cases {
        match read_config(alloc, document.as_bytes()) {
            Ok(_) => return Ok(false),
            Err(fault) => {
                if !shows(alloc, &fault, code)? {
                    return Ok(false);
                }
            }
        }
    }
    Ok(true)
}

#[test]
fn faults_show_their_codes(rt: HostRuntime) -> Result<(), Fail> {
    assert!(rt; all_show(rt.alloc(), &SHOWN)?);
    assert!(rt; shows(rt.alloc(), &ConfigFault::NoMemory(AllocError), "memory")?);
    Ok(())
}

// So many addresses, the node's own first, as a document lists them.
fn addresses(alloc: Global, count: u16) -> Result<String, AllocError> {
    let mut addresses = String::new(alloc);
    'ports: for port in 1..=count {
        addresses.push_str(format!(in alloc; "\"a:{port}\",")?.as_str())?;
    }
    Ok(addresses)
}

// A document that lists these.
fn listing(alloc: Global, listed: &str) -> Result<String, AllocError> {
    format!(in alloc; "self = \"a:1\"\nuid = 1\nstrategy = \"down-all\"\nlisted = [{listed}]\n")
}

// The first fault of a document that lists so many.
fn lists(alloc: Global, count: u16, code: &str, key: &str) -> Result<bool, AllocError> {
    let listed = addresses(alloc, count)?;
    let document = listing(alloc, listed.as_str())?;
    Ok(is_answered(alloc, document.as_bytes(), code, key))
}

#[test]
fn as_many_as_32_addresses_are_listed(rt: HostRuntime) -> Result<(), Fail> {
    assert!(rt; lists(rt.alloc(), 32, "", "")?);
    assert!(rt; lists(rt.alloc(), 33, "C5", "listed")?);
    Ok(())
}

// The first fault of a document in which these have the role, and 32 are listed.
fn role_has_fault(alloc: Global, role: &str, code: &str) -> Result<bool, AllocError> {
    let listed = addresses(alloc, 32)?;
    let document = listing(alloc, listed.as_str())?;
    let whole = format!(in alloc; "{}role = [{role}]\n", document.as_str())?;
    Ok(is_answered(alloc, whole.as_bytes(), code, "role"))
}

// What stands before so many addresses in the role, how many there are, and the first fault.
static ROLES: [(&str, u16, &str); 6] = [
    ("", 32, ""),
    ("\"a:1\",", 32, "C5"),
    ("", 33, "C5"),
    // The number comes before what they are, and what is no string before the number.
    ("\"a\",", 32, "C5"),
    ("1,", 32, "C4"),
    ("\"a:1\",", 31, "C8"),
];

fn role_goes_so(alloc: Global, case: &(&str, u16, &str)) -> Result<bool, AllocError> {
    let others = addresses(alloc, case.1)?;
    let role = format!(in alloc; "{}{}", case.0, others.as_str())?;
    role_has_fault(alloc, role.as_str(), case.2)
}

#[test]
fn as_many_as_32_addresses_have_the_role(rt: HostRuntime) -> Result<(), Fail> {
    for (index, case) in ROLES.iter().enumerate() {
        assert!(rt; role_goes_so(rt.alloc(), case)?, "{index}");
    }
    Ok(())
}

fn has_defaults(config: &Config) -> bool {
    let settings = &config.settings;
    let times = settings.margin == 20 && settings.deadline == 5 && settings.stable == 20;
    let sizes = settings.shards == 1000 && settings.buffer == 100_000;
    let moves = settings.threshold == 1 && settings.limit == 3 && settings.weakly == 0;
    times && sizes && moves && settings.types.is_empty()
}

fn runs_by_default(config: &Config) -> bool {
    config.tick_ms == 1000 && config.seed == 1 && !config.found && config.join.is_none()
}

#[test]
fn what_is_not_said_has_its_default(rt: HostRuntime) -> Result<(), Fail> {
    let config = read_config(rt.alloc(), NEEDED.as_bytes())?;
    assert!(rt; has_defaults(&config));
    assert!(rt; runs_by_default(&config));
    assert!(rt; config.me.uid == 1 && config.me.address.port == 1);
    assert!(rt; ports(&config.settings.role) == [1, 0]);
    Ok(())
}

fn port(addresses: &[Address], index: usize) -> u16 {
    match addresses.get(index) {
        Some(address) => address.port,
        None => 0,
    }
}

// The ports of the first two addresses, 0 where there is none.
fn ports(addresses: &[Address]) -> [u16; 2] {
    [port(addresses, 0), port(addresses, 1)]
}

const ALL_SAID: &str =
    "self = \"b:2\"\nuid = 7\nlisted = [\"a:1\", \"b:2\"]\nstrategy = \"static-quorum\"\nquorum = 2\nmargin = 11\ndeadline = 12\nstable = 13\nshards = 14\nbuffer = 15\nthreshold = 16\nlimit = 17\ntick-ms = 50\nseed = 0\nfound = true\njoin = \"a:1\"\nweakly = 18\nrole = [\"b:2\", \"a:1\"]\ntypes = [\"user\", \"order\"]\n";

fn has_numbers(config: &Config) -> bool {
    let settings = &config.settings;
    let times = settings.margin == 11 && settings.deadline == 12 && settings.stable == 13;
    let sizes = settings.shards == 14 && settings.buffer == 15;
    let moves = settings.threshold == 16 && settings.limit == 17 && settings.weakly == 18;
    times && sizes && moves
}

// The names stand in the order of the document, and each type has its shards.
fn has_user_and_order(settings: &Settings) -> bool {
    match (settings.types.get(0), settings.types.get(1)) {
        (Some(first), Some(second)) => {
            let named = is_key(first, "user") && is_key(second, "order");
            named && settings.types.len() == 2 && settings.number_of_shards() == 28
        }
        _ => false,
    }
}

#[test]
fn what_is_said_is_read(rt: HostRuntime) -> Result<(), Fail> {
    let config = read_config(rt.alloc(), ALL_SAID.as_bytes())?;
    assert!(rt; has_numbers(&config));
    assert!(rt; config.me.uid == 7 && config.me.address.port == 2);
    assert!(rt; ports(&config.settings.listed) == [1, 2]);
    assert!(rt; ports(&config.settings.role) == [2, 1]);
    assert!(rt; has_user_and_order(&config.settings));
    assert!(rt; config.settings.strategy == Strategy::StaticQuorum(2));
    assert!(rt; config.tick_ms == 50 && config.seed == 0 && config.found);
    assert!(rt; config.join.is_some());
    Ok(())
}

// What stands for the strategy, and the strategy.
static STRATEGIES: [(&str, Strategy); 7] = [
    ("\"keep-oldest\"", Strategy::KeepOldest(true)),
    (
        "\"keep-oldest\"\ndown-if-alone = true",
        Strategy::KeepOldest(true),
    ),
    (
        "\"keep-oldest\"\ndown-if-alone = false\nquorum = 2",
        Strategy::KeepOldest(false),
    ),
    (
        "\"static-quorum\"\nquorum = 2\ndown-if-alone = false",
        Strategy::StaticQuorum(2),
    ),
    ("\"keep-majority\"", Strategy::KeepMajority),
    (
        "\"keep-majority\"\ndown-if-alone = true",
        Strategy::KeepMajority,
    ),
    ("\"down-all\"\ndown-if-alone = false", Strategy::DownAll),
];

// It has this strategy, two are listed, and the second of them has the role.
fn has_strategy(settings: &Settings, wanted: Strategy) -> bool {
    let roles = ports(&settings.listed) == [1, 2] && ports(&settings.role) == [2, 0];
    roles && settings.strategy == wanted
}

fn reads_strategy(alloc: Global, text: &str, wanted: Strategy) -> Result<bool, AllocError> {
    let document = format!(in alloc;
        "self = \"a:1\"\nuid = 1\nlisted = [\"a:1\", \"b:2\"]\nrole = [\"b:2\"]\nstrategy = {text}\n"
    )?;
    match read_config(alloc, document.as_bytes()) {
        Ok(config) => Ok(has_strategy(&config.settings, wanted)),
        Err(_) => Ok(false),
    }
}

#[test]
fn strategies_and_roles_are_read(rt: HostRuntime) -> Result<(), Fail> {
    for (text, wanted) in &STRATEGIES {
        assert!(rt; reads_strategy(rt.alloc(), text, *wanted)?, "{text}");
    }
    Ok(())
}

// The needed keys and a comment, so many bytes in all.
fn padded(alloc: Global, bytes: usize) -> Result<Text, AllocError> {
    let mut document = NEEDED.as_bytes().to_vec(alloc)?;
    document.resize(bytes, b'#')?;
    Text::from_bytes(alloc, &document)
}

fn folder_of(alloc: Global, bytes: usize) -> Result<MemoryFolder, AllocError> {
    let name = Text::from_bytes(alloc, b"F")?;
    let bytes = padded(alloc, bytes)?;
    let mut files = Vec::new(alloc);
    files.push(MemoryFile { name, bytes })?;
    MemoryFolder::new(alloc, files, &[])
}

fn loads_a_good_one(alloc: Global, folder: &mut MemoryFolder, name: &Text) -> bool {
    match folder.load(alloc, name, 65_536) {
        Loaded::Bytes(bytes) => is_answered(alloc, bytes.bytes(), "", ""),
        _ => false,
    }
}

#[test]
fn a_long_document_is_read(rt: HostRuntime) -> Result<(), Fail> {
    let name = Text::from_bytes(rt.alloc(), b"F")?;
    let mut folder = folder_of(rt.alloc(), 65_536)?;
    assert!(rt; loads_a_good_one(rt.alloc(), &mut folder, &name));
    let mut longer = folder_of(rt.alloc(), 65_537)?;
    assert!(rt; matches!(longer.load(rt.alloc(), &name, 65_536), Loaded::TooLarge));
    Ok(())
}
