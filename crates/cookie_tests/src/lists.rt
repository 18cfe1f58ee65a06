//! Values from the Public Suffix List's own test file (`tests/tests.txt`, CC0), and first faults.
use agent_base::MemSource;
use std::alloc::Global;
use std::test::Fail;
use suffix_list::{ListFault, SuffixList};

// The rules on which the hosts below depend, in another order than the list's.
const RULES: &str = "// rules of the Public Suffix List
!www.ck
*.ck with white space behind it
com
uk.com
*.kobe.jp
!city.kobe.jp

jp
kyoto.jp
ide.kyoto.jp
us
ak.us
k12.ak.us
cn
公司.cn
公司.cn
中国
*.landing.myjino.ru
";

// The list that a text is, or why it is none.
fn read(alloc: Global, text: &str) -> Result<Result<SuffixList, ListFault>, Fail> {
    let bytes = Vec::from_slice(alloc, text.as_bytes())?;
    let mut source = MemSource::new(bytes, Vec::new(alloc));
    Ok(SuffixList::read(alloc, &mut source))
}

#[test]
fn registrable_domains_of_the_lists_own_tests(rt: HostRuntime) -> Result<(), Fail> {
    let alloc = rt.alloc();
    let list = read(alloc, RULES)??.copy(alloc)?;
    for (host, domain) in [
        ("com", ""),
        ("b.example.com", "example.com"),
        ("uk.com", ""),
        ("b.example.uk.com", "example.uk.com"),
        ("ck", ""),
        ("test.ck", ""),
        ("a.b.test.ck", "b.test.ck"),
        ("www.ck", "www.ck"),
        ("www.www.ck", "www.ck"),
        ("c.kobe.jp", ""),
        ("a.b.c.kobe.jp", "b.c.kobe.jp"),
        ("www.city.kobe.jp", "city.kobe.jp"),
        ("test.kyoto.jp", "test.kyoto.jp"),
        ("b.ide.kyoto.jp", "b.ide.kyoto.jp"),
        ("k12.ak.us", ""),
        ("www.test.k12.ak.us", "test.k12.ak.us"),
        ("www.xn--85x722f.xn--55qx5d.cn", "xn--85x722f.xn--55qx5d.cn"),
        ("xn--55qx5d.cn", ""),
        ("xn--fiqs8s", ""),
        ("www.landing.myjino.ru", ""),
        ("aaa.myjino.ru", "myjino.ru"),
        ("b.example.example", "example.example"),
    ] {
        let found = list.registrable(host);
        assert_eq!(rt; found.unwrap_or(""), domain, "{host}");
        assert_eq!(rt; list.is_suffix(host), domain == "", "{host}");
    }
    Ok(())
}

#[test]
fn first_fault_of_a_text(rt: HostRuntime) -> Result<(), Fail> {
    let alloc = rt.alloc();
    for (text, why) in [
        (
            "// c\n\ncom extra\n*.ck\na.*.b\na..b",
            ListFault::BadRule(5),
        ),
        ("com\na..b", ListFault::BadRule(2)),
        ("b.example.com.\n", ListFault::BadRule(1)),
        ("a<b", ListFault::BadRule(1)),
        ("xn--a", ListFault::BadRule(1)),
        ("a。。b", ListFault::BadRule(1)),
        ("\u{FEFF}// c\ncom", ListFault::BadRule(1)),
        ("\u{FEFF}*.ck", ListFault::BadRule(1)),
    ] {
        match read(alloc, text)? {
            Ok(_) => assert!(rt; false, "{text}"),
            Err(fault) => assert_eq!(rt; fault, why, "{text}"),
        }
    }
    let shown = format!(in alloc;
        "{}; {}; {}",
        ListFault::BadRule(2),
        ListFault::TooManyRules(3),
        ListFault::TooLong
    )?;
    assert_eq!(rt;
        shown.as_str(),
        "list line 2: bad rule; list line 3: too many rules; list: too long"
    );
    Ok(())
}

// A list of one rule, a host, and its registrable domain.
#[test]
fn rules_that_are_not_what_they_look_like(rt: HostRuntime) -> Result<(), Fail> {
    let alloc = rt.alloc();
    for (rule, host, domain) in [
        ("＊.com", "a.b.com", "a.b.com"),
        ("\u{FEFF}uk.com", "a.b.uk.com", "b.uk.com"),
        ("\u{FEFF}!uk.com", "a.b.uk.com", "uk.com"),
        ("com", "a.b.telecom", "b.telecom"),
        ("*.ck", "a.b.c.ck", "b.c.ck"),
        ("", "a.b.xn--a", "b.xn--a"),
    ] {
        let list = read(alloc, rule)??;
        assert_eq!(rt;
            list.registrable(host).unwrap_or(""),
            domain,
            "{host} under {rule}"
        );
    }
    Ok(())
}

#[test]
fn limits_and_faults_of_a_source(rt: HostRuntime) -> Result<(), Fail> {
    let alloc = rt.alloc();
    for (lines, last, why) in [
        (32_767, "b", None),
        (32_768, "b", Some(ListFault::TooManyRules(32_769))),
        (32_768, "a..b", Some(ListFault::BadRule(32_769))),
        (524_288, "", Some(ListFault::TooManyRules(32_769))),
        (524_288, "b", Some(ListFault::TooLong)),
    ] {
        let mut text = String::new(alloc);
        for _ in 0..lines {
            text.push_str("a\n")?;
        }
        text.push_str(last)?;
        let fault = match read(alloc, text.as_str())? {
            Ok(_) => None,
            Err(fault) => Some(fault),
        };
        assert_eq!(rt; fault, why, "{lines} lines and {last}");
    }
    let fails = Vec::from_slice(alloc, &[1])?;
    let mut source = MemSource::new(Vec::from_slice(alloc, b"com")?, fails);
    let failed = SuffixList::read(alloc, &mut source);
    assert!(rt; matches!(failed, Err(ListFault::ReadFault)));
    Ok(())
}
